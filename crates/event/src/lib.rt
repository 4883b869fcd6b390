// The events of a call, each without its element.
#![tactic(auto)]

use facility_rules::What;
use rights::Rights;
use sent::side::Side;
use services::{ByService, Given, Request};

// An event without its element.
#[derive(Clone, Copy)]
pub enum Event {
    Setup {
        reference: u16,
        rights: Rights,
        requests: ByService<Request>,
    },
    Alerting {
        answers: ByService<Given>,
    },
    Connect {
        answers: ByService<Given>,
    },
    Information {
        side: Side,
        more: bool,
    },
    Facility {
        side: Side,
        what: What,
    },
    Disconnect {
        side: Side,
        cause: u8,
        answers: ByService<Given>,
    },
    ReleaseComplete {
        side: Side,
    },
    Tick,
    CallProceeding,
    CongestionControl,
}
