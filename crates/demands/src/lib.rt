// No code: what is demanded of any core, one after the other, and that only this core meets it.
#![tactic(auto)]
