// Causes: the values that the box gives. `element` has what a Cause element says.
#![tactic(auto)]

pub mod element;

// The called user is told that its own answers cleared the call.
pub const CLEARED: u8 = 31;
// A message was dropped for credit, and later: there is credit again.
pub const DISCARDED: u8 = 43;
// The rights lack a required service.
pub const NOT_SUBSCRIBED: u8 = 50;
// The called user's answers did not accept a required service.
pub const NOT_ACCEPTED: u8 = 69;
// The greatest value that a cause can have.
pub const GREATEST_CAUSE: u8 = 127;
