// What is printed of a capture of messages: a line a message, piece by piece.
#![tactic(auto)]

pub mod frames;
pub mod margins;
