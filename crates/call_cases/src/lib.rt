// No code: the paper's edges on calls, runs that meet the premises of the promises, runs that go wrong without one, and
// wrong cores, as statements in `specs/`; all are computed in `proofs/`.
#![tactic(auto)]
