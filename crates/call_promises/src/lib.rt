// No code: what is promised of a call, over the definitions of `call`, as statements in `specs/`, and their proofs:
// numbers, notes, refusals, records that stay in range, what users are handed, required services, more rights, and
// credit.
#![tactic(auto)]
