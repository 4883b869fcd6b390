// FACILITY: service 3 asked for, accepted or rejected while connected, and what it is answered. `messages` has what the
// two users are told.
#![tactic(auto)]

ghost use Rattle.std.specs.Prelude.{◌≡◌};
ghost use Rattle.facility_rules.specs.Asking.{nobody_asks, may_ask_of, to_answer_of, verdict_of, facility_asking_of, facility_three_of, facility_meters_of};

use answer::Answer;
use flow_meter::Meter;
use flow_meter::call_meters::grants;
use rights::{Rights, Service, has};
use sent::side::{BySide, Side, peer};
use services::Standing;

pub mod messages;

// What a FACILITY message says of service 3.
#[derive(Clone, Copy)]
pub enum What {
    Preferred,
    Accept,
    Reject,
    Required,
}

#[tactic(auto, unfolding(crate::specs::Asking::nobody_asks))]
pub fn nobody_asks() -> BySide<bool>
    ensures { result ≡ nobody_asks }
{
    BySide::same(false)
}

fn may_ask(r: Rights, side: Side) -> bool
    ensures { result ≡ may_ask_of r side }
{
    match side {
        Side::Calling => has(r, Service::Three),
        Side::Called => has(r, Service::Three) && r.leave,
    }
}

#[tactic(auto, unfolding(crate::specs::Asking::to_answer_of))]
fn to_answer(shut: bool) -> Answer
    ensures { result ≡ to_answer_of shut }
{
    if shut { Answer::NotOpen } else { Answer::Taken }
}

// `force` says whether service 3 is in force. A request is answered 16, then 15.
#[tactic(auto, unfolding(crate::specs::Asking::to_answer_of, crate::specs::Asking::to_request_of))]
pub fn verdict(r: Rights, a: BySide<bool>, force: bool, side: Side, what: What) -> Answer
    ensures { result ≡ verdict_of r a force side what }
{
    match what {
        What::Preferred if !may_ask(r, side) => Answer::NotGranted,
        What::Preferred => to_answer(force || a.of(side)),
        What::Accept | What::Reject => to_answer(force || !a.of(peer(side))),
        What::Required => Answer::AskedRequired,
    }
}

// Accept closes both requests, reject the one that it answers.
pub fn facility_asking(a: BySide<bool>, side: Side, what: What) -> BySide<bool>
    ensures { result ≡ facility_asking_of a side what }
{
    match what {
        What::Preferred => a.with(side, true),
        What::Accept => nobody_asks(),
        What::Reject => a.with(peer(side), false),
        What::Required => a,
    }
}

pub fn facility_three(s: Standing, what: What) -> Standing
    ensures { result ≡ facility_three_of s what }
{
    match what {
        What::Accept => Standing::InForce,
        What::Preferred | What::Reject | What::Required => s,
    }
}

// Accept in FACILITY puts service 3 in force as an acceptance before Active does.
pub fn facility_meters(m: BySide<Meter>, burst: u16, what: What) -> BySide<Meter>
    ensures { result ≡ facility_meters_of m burst what }
{
    match what {
        What::Accept => grants(m, burst),
        What::Preferred | What::Reject | What::Required => m,
    }
}
