// No code: what is promised of messages read and written, as statements in `specs/`, and their proofs; and that any two
// replies that a contract allows are the same.
#![tactic(auto)]
