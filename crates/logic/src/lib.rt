// No code: what "the first that applies" means, for every table of numbers that the promises state, and what a test
// that came out one way or the other says, for all proofs.
#![tactic(auto)]
