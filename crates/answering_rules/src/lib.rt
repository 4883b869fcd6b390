// ALERTING and CONNECT: what the answers that are due make of each service. `effects` has what that makes of the call.
#![tactic(auto)]

ghost use Rattle.std.specs.Prelude.{◌≡◌};
ghost use Rattle.answering_rules.specs.Fates.{decided_of, alerting_fates_of, connect_fates_of};

use services::{ByService, Given, Standing};

pub mod effects;

// What an answer that is due makes of a service. Failed: it was required and is not accepted.
#[derive(Clone, Copy)]
pub enum Fate {
    Kept,
    Accepted,
    Closed,
    Failed,
}

// What an answer that is due makes of a service. One that is not open keeps its standing, whatever is said of it.
fn decided(s: Standing, g: Given) -> Fate
    ensures { result ≡ decided_of s g }
{
    match (s, g) {
        (Standing::Preferred | Standing::Required, Given::Accepted) => Fate::Accepted,
        (Standing::Preferred, _) => Fate::Closed,
        (Standing::Required, _) => Fate::Failed,
        _ => Fate::Kept,
    }
}

// The answers to services 1 and 2 are due at ALERTING.
#[tactic(auto, unfolding(crate::specs::Fates::alerting_fates_of))]
pub fn alerting_fates(s: ByService<Standing>, a: ByService<Given>) -> ByService<Fate>
    ensures { result ≡ alerting_fates_of s a }
{
    ByService {
        one: decided(s.one, a.one),
        two: decided(s.two, a.two),
        three: Fate::Kept,
    }
}

// The answer to service 3 is due at CONNECT; without ALERTING the one to service 1 too, and service 2 counts as
// unanswered.
#[tactic(auto, unfolding(crate::specs::Fates::connect_fates_of))]
pub fn connect_fates(alerted: bool, s: ByService<Standing>, a: ByService<Given>) -> ByService<Fate>
    ensures { result ≡ connect_fates_of alerted s a }
{
    let three = decided(s.three, a.three);
    if alerted {
        ByService {
            three,
            ..ByService::same(Fate::Kept)
        }
    } else {
        ByService {
            one: decided(s.one, a.one),
            two: decided(s.two, Given::Silent),
            three,
        }
    }
}
