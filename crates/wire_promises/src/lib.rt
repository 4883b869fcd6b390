// No code: what needs calls and octets both, as statements in `specs/`, and their proofs: how a message of a reply goes
// on the line, samples of it, and all of the paper's edges under one statement.
#![tactic(auto)]
