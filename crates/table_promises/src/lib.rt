// No code: what is promised of the table, as statements in `specs/`, and their proofs: its numbers, that one place
// changes at the most, what is replied, and that references do not meddle with each other.
#![tactic(auto)]
