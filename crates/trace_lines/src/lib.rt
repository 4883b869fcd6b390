// The lines of a trace: its first line, the line of a fault, the line of a record, what a message says, item by item,
// and what is said of a fault.
#![tactic(auto)]

mod in_place;
mod items;
pub mod notices;
pub mod report;
pub mod words;
