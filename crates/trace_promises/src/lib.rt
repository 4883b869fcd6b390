// No code: what is promised of traces, as statements in `specs/`, and their proofs: which records are faults, that a
// record which is written reads back, and that a trace read in pieces prints what the whole of it makes.
#![tactic(auto)]
