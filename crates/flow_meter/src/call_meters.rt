// The two meters of a call, and what the events make of them.
ghost use Rattle.std.specs.Prelude.{◌≡◌};
ghost use Rattle.flow_meter.specs.CallMeters.{empty_meters, spent_of, grants_of, refills_of, ready_of};

use crate::Meter;
use crate::passage::Passage;
use rights::Rights;
use sent::side::{BySide, Side};
use sent::{Level, Message, congestion, only_if};

#[tactic(auto, unfolding(crate::specs::CallMeters::empty_meters))]
pub fn empty_meters() -> BySide<Meter>
    ensures { result ≡ empty_meters }
{
    BySide::same(Meter::empty())
}

// What a message's passage makes of the meter of its side.
pub fn spent(m: BySide<Meter>, side: Side, p: Passage) -> BySide<Meter>
    ensures { result ≡ spent_of m side p }
{
    m.with(side, m.of(side).after(p))
}

// What a function makes of each side's meter. It asks that the function may be called, so it is not public.
fn map<F: Fn(Meter) -> Meter>(m: BySide<Meter>, f: F) -> BySide<Meter>
    requires { F.IsAlwaysCallable f }
    ensures calling { F.post f m.calling result.calling }
    ensures called { F.post f m.called result.called }
{
    BySide {
        calling: f(m.calling),
        called: f(m.called),
    }
}

// Service 3 comes into force: each direction has the whole burst.
#[tactic(auto, unfolding(crate::specs::CallMeters::grants_of))]
pub fn grants(m: BySide<Meter>, burst: u16) -> BySide<Meter>
    ensures { result ≡ grants_of m burst }
{
    map(m, |own| own.granted(burst))
}

// `runs` says whether service 3 is in force in Active: otherwise a tick does nothing.
#[tactic(auto, unfolding(crate::specs::CallMeters::refills_of, crate::specs::CallMeters::ticked_meters_of))]
pub fn refills(m: BySide<Meter>, r: Rights, runs: bool) -> BySide<Meter>
    ensures { result ≡ refills_of m r runs }
{
    if runs {
        map(m, |own| own.ticked(r.burst, r.refill))
    } else {
        m
    }
}

// The sender of a direction whose mark is set is told that it is ready.
#[tactic(auto, unfolding(crate::specs::CallMeters::ready_of))]
pub fn ready(m: Meter, runs: bool) -> Option<Message>
    ensures { result ≡ ready_of m runs }
{
    only_if(runs && m.mark, Some(congestion(Level::Ready)))
}
