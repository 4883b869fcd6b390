// Numbers as text, put into a buffer that the caller lends or on a line that has room of its own, and text read as
// octets. A piece of octets is put into a buffer by `memory::write_octets`. Each function that writes into one takes
// the buffer and a place in it, as `Written` names both.
#![tactic(auto)]

pub mod decimal;
pub mod hex;
pub mod line;
pub mod octets;
pub mod page;
pub mod service;
