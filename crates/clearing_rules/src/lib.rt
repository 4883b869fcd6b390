// DISCONNECT: what the answers in the called side's message still make of the services, and what is said of each.
#![tactic(auto)]

ghost use Rattle.std.specs.Prelude.{◌≡◌};
ghost use Rattle.clearing_rules.specs.Closing.{rejection_of, closing_said_of, closing_standing_of, heard_answers_of, closing_facilities_of};

use sent::side::Side;
use services::{ByService, Given, Said, Standing, awaits};

// What the called side's DISCONNECT says of a service, where `waits` says whether the caller's request is open.
fn rejection(waits: bool, g: Given) -> Said
    ensures { result ≡ rejection_of waits g }
{
    match g {
        Given::Rejected if waits => Said::ByUser,
        _ => Said::Nothing,
    }
}

// The same for service 1, which can still be accepted.
fn closing_said(s: Standing, g: Given) -> Said
    ensures { result ≡ closing_said_of s g }
{
    match g {
        Given::Accepted if awaits(s) => Said::Accepted,
        _ => rejection(awaits(s), g),
    }
}

pub fn closing_standing(s: Standing, g: Given) -> Standing
    ensures { result ≡ closing_standing_of s g }
{
    match g {
        Given::Accepted if awaits(s) => Standing::InForce,
        _ => s,
    }
}

// Only the called side has anything to answer.
#[tactic(auto, unfolding(crate::specs::Closing::silent_answers))]
pub fn heard_answers(side: Side, a: ByService<Given>) -> ByService<Given>
    ensures { result ≡ heard_answers_of side a }
{
    match side {
        Side::Calling => ByService::same(Given::Silent),
        Side::Called => a,
    }
}

// `asks` says whether the caller's own FACILITY request is open.
#[tactic(auto, unfolding(crate::specs::Closing::closing_facilities_of))]
pub fn closing_facilities(
    s: ByService<Standing>,
    asks: bool,
    a: ByService<Given>,
) -> ByService<Said>
    ensures { result ≡ closing_facilities_of s asks a }
{
    ByService {
        one: closing_said(s.one, a.one),
        two: rejection(awaits(s.two), a.two),
        three: rejection(awaits(s.three) || asks, a.three),
    }
}
