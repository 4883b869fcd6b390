// USER INFORMATION: which service serves it. `messages` has what it is answered and what both sides are sent.
#![tactic(auto)]

ghost use Rattle.std.specs.Prelude.{◌≡◌};
ghost use Rattle.information_rules.specs.Serving.{late_of, serves_two_of, serves_three_of, served_of};

use flow_meter::Meter;
use flow_meter::passage::{Passage, passage_of};
use phases::{Phase, is_active};
use sent::side::Side;

pub mod messages;

// Late delivery is for what the calling side sends.
fn late(side: Side, right: bool) -> bool
    ensures { result ≡ late_of side right }
{
    right && matches!(side, Side::Calling)
}

// Whether service 2 serves in a phase; `force` says whether it is in force.
fn serves_two(p: Phase, force: bool, late: bool) -> bool
    ensures { result ≡ serves_two_of p force late }
{
    match p {
        Phase::Alerting => force,
        Phase::Active => force && late,
        _ => false,
    }
}

pub fn serves_three(p: Phase, force: bool) -> bool
    ensures { result ≡ serves_three_of p force }
{
    force && is_active(p)
}

// What a side's message meets in its meter; `right` says whether the rights have late delivery, two and three which
// services are in force.
pub fn served(m: Meter, p: Phase, side: Side, right: bool, two: bool, three: bool) -> Passage
    ensures { result ≡ served_of m p side right two three }
{
    passage_of(
        m,
        serves_two(p, two, late(side, right)),
        serves_three(p, three),
    )
}
