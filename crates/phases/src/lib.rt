// The phases of a call, and which of them each event is allowed in.
#![tactic(auto)]

ghost use Rattle.std.specs.Prelude.{◌≡◌};
ghost use Rattle.phases.specs.Phase.{fresh_of, requested_of, connectable_of, talking_of, active_of, up_of, live_of};

#[derive(Clone, Copy)]
pub enum Phase {
    Fresh,
    Requested,
    Alerting,
    Active,
    Clearing,
    Ended,
}

// SETUP.
pub fn is_fresh(p: Phase) -> bool
    ensures { result ≡ fresh_of p }
{
    matches!(p, Phase::Fresh)
}

// ALERTING.
pub fn is_requested(p: Phase) -> bool
    ensures { result ≡ requested_of p }
{
    matches!(p, Phase::Requested)
}

// CONNECT.
pub fn is_connectable(p: Phase) -> bool
    ensures { result ≡ connectable_of p }
{
    matches!(p, Phase::Requested | Phase::Alerting)
}

// USER INFORMATION.
pub fn is_talking(p: Phase) -> bool
    ensures { result ≡ talking_of p }
{
    matches!(p, Phase::Alerting | Phase::Active)
}

// FACILITY.
pub fn is_active(p: Phase) -> bool
    ensures { result ≡ active_of p }
{
    matches!(p, Phase::Active)
}

// DISCONNECT.
pub fn is_up(p: Phase) -> bool
    ensures { result ≡ up_of p }
{
    matches!(p, Phase::Requested | Phase::Alerting | Phase::Active)
}

// RELEASE COMPLETE and tick.
pub fn is_live(p: Phase) -> bool
    ensures { result ≡ live_of p }
{
    matches!(
        p,
        Phase::Requested | Phase::Alerting | Phase::Active | Phase::Clearing
    )
}
