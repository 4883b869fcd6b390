// What the fates of the services make of a call: how each then stands, what is said of it, and whether one failed.
ghost use Rattle.std.specs.Prelude.{◌≡◌};
ghost use Rattle.answering_rules.specs.Effects.{settled_of, told_of, declined_of, failure_of, failed_of, settles_of, tells_of, declines_of, in_force_after_of};

use crate::Fate;
use flow_meter::Meter;
use flow_meter::call_meters::grants;
use sent::side::BySide;
use services::{ByService, Said, Standing};

// How a service stands after its answer. Where one failed the call is cleared, and nobody asks this.
fn settled(s: Standing, f: Fate) -> Standing
    ensures { result ≡ settled_of s f }
{
    match f {
        Fate::Kept => s,
        Fate::Accepted => Standing::InForce,
        Fate::Closed | Fate::Failed => Standing::Closed,
    }
}

// What the caller is told where the message goes on.
fn told(f: Fate) -> Said
    ensures { result ≡ told_of f }
{
    match f {
        Fate::Kept => Said::Nothing,
        Fate::Accepted => Said::Accepted,
        Fate::Closed | Fate::Failed => Said::ByUser,
    }
}

// What the caller is told where the call is cleared.
fn declined(f: Fate) -> Said
    ensures { result ≡ declined_of f }
{
    match f {
        Fate::Kept | Fate::Accepted => Said::Nothing,
        Fate::Closed | Fate::Failed => Said::ByUser,
    }
}

fn failure(f: Fate) -> bool
    ensures { result ≡ failure_of f }
{
    matches!(f, Fate::Failed)
}

// What a function makes of the fate of each service. It asks that the function may be called, so it is not public.
fn map<U, F: Fn(Fate) -> U>(f: ByService<Fate>, rule: F) -> ByService<U>
    requires { F.IsAlwaysCallable rule }
    ensures one { F.post rule f.one result.one }
    ensures two { F.post rule f.two result.two }
    ensures three { F.post rule f.three result.three }
{
    ByService {
        one: rule(f.one),
        two: rule(f.two),
        three: rule(f.three),
    }
}

// Whether a required service failed, which clears the call.
#[tactic(auto, unfolding(crate::specs::Effects::failed_of))]
pub fn failed(f: ByService<Fate>) -> bool
    ensures { result ≡ failed_of f }
{
    map(f, failure).any()
}

#[tactic(auto, unfolding(crate::specs::Effects::settles_of))]
pub fn settles(s: ByService<Standing>, f: ByService<Fate>) -> ByService<Standing>
    ensures { result ≡ settles_of s f }
{
    ByService {
        one: settled(s.one, f.one),
        two: settled(s.two, f.two),
        three: settled(s.three, f.three),
    }
}

#[tactic(auto, unfolding(crate::specs::Effects::tells_of))]
pub fn tells(f: ByService<Fate>) -> ByService<Said>
    ensures { result ≡ tells_of f }
{
    map(f, told)
}

#[tactic(auto, unfolding(crate::specs::Effects::declines_of))]
pub fn declines(f: ByService<Fate>) -> ByService<Said>
    ensures { result ≡ declines_of f }
{
    map(f, declined)
}

// Service 3 comes into force where it is accepted.
pub fn in_force_after(m: BySide<Meter>, burst: u16, three: Fate) -> BySide<Meter>
    ensures { result ≡ in_force_after_of m burst three }
{
    match three {
        Fate::Accepted => grants(m, burst),
        _ => m,
    }
}
