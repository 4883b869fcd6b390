// One call: its record, a method for each event, the step over any event, and the replies; numbers 11 to 18, 24, 25.
#![tactic(auto)]

use flow_meter::Meter;
use phases::Phase;
use rights::Rights;
use sent::side::BySide;
use services::{ByService, Standing};

pub mod answering;
pub mod disconnect;
pub mod facility;
pub mod information;
mod records;
pub mod reply;
pub mod setup;
pub mod sound;
pub mod step;
pub mod tick;

#[derive(Clone, Copy)]
pub struct Call {
    pub reference: u16,
    pub rights: Rights,
    pub phase: Phase,
    pub standings: ByService<Standing>,
    pub asking: BySide<bool>,
    pub meters: BySide<Meter>,
}
