// SETUP: what it asks for, held against the rights: how each service then stands, and what is said of it to each user.
#![tactic(auto)]

ghost use Rattle.std.specs.Prelude.{◌≡◌, Some};
ghost use Rattle.rights.specs.Rights.{has_of};
ghost use Rattle.rights.specs.declared.Service.{Service};
ghost use Rattle.setup_rules.specs.Requests.{asked_standing_of, first_standing_of, lacking_of, passed_request_of, network_refusal_of, standings_of, lacks_of, network_refusals_of, passed_requests_of, setup_phase_of, to_caller_of, to_called_of, opening_of};

use cause::NOT_SUBSCRIBED;
use message_types::Kind;
use phases::Phase;
use rights::{Rights, Service, has};
use sent::dispatch::{Dispatch, by_one, to_users};
use sent::{Message, only_if, saying};
use services::{ByService, Request, Said, Standing, remains};
use user_element::{Note, Seen, goes_out, noted, whole};

// What a SETUP that is taken makes of the call: its phase, how each service stands, the element's note, and the two
// messages with what carries the element.
#[derive(Clone, Copy)]
pub struct Opening {
    pub phase: Phase,
    pub standings: ByService<Standing>,
    pub note: Note,
    pub dispatch: Dispatch,
}

// How a service stands after SETUP; `had` says whether the rights have it.
fn asked_standing(q: Request, had: bool) -> Standing
    ensures { result ≡ asked_standing_of q had }
{
    match (q, had) {
        (Request::Unasked, _) => Standing::Unasked,
        (Request::Preferred, true) => Standing::Preferred,
        (Request::Required, true) => Standing::Required,
        (_, false) => Standing::Closed,
    }
}

// Service 1 may be asked for by its element alone, and is then in force at once: nobody answers it.
#[tactic(auto, unfolding(crate::specs::Requests::first_standing_of))]
fn first_standing(q: Request, s: Seen, had: bool) -> Standing
    ensures { result ≡ first_standing_of q s had }
{
    match q {
        Request::Unasked if whole(s) && had => Standing::InForce,
        Request::Unasked if whole(s) => Standing::Closed,
        _ => asked_standing(q, had),
    }
}

// A required service that the rights lack.
fn lacking(q: Request, had: bool) -> bool
    ensures { result ≡ lacking_of q had }
{
    matches!(q, Request::Required) && !had
}

// What SETUP tells the called user.
fn passed_request(q: Request, had: bool) -> Said
    ensures { result ≡ passed_request_of q had }
{
    match (q, had) {
        (Request::Preferred, true) => Said::Preferred,
        (Request::Required, true) => Said::Required,
        _ => Said::Nothing,
    }
}

// What the caller is told of its request at once. Only an explicit request is answered.
fn network_refusal(q: Request, had: bool) -> Said
    ensures { result ≡ network_refusal_of q had }
{
    match (q, had) {
        (Request::Preferred | Request::Required, false) => Said::ByNetwork,
        _ => Said::Nothing,
    }
}

// Which services the rights have. Each rule asks for itself: `standings_of`, `lacks_of` and the others take the rights.
fn had(rights: Rights) -> ByService<bool>
    ensures { result ≡ record { one = has_of rights Service.One; two = has_of rights Service.Two; three = has_of rights Service.Three } }
{
    ByService {
        one: has(rights, Service::One),
        two: has(rights, Service::Two),
        three: has(rights, Service::Three),
    }
}

// How each service stands after SETUP.
#[tactic(auto, unfolding(crate::specs::Requests::standings_of))]
fn standings_of(rights: Rights, q: ByService<Request>, s: Seen) -> ByService<Standing>
    ensures { result ≡ standings_of rights q s }
{
    let had = had(rights);
    ByService {
        one: first_standing(q.one, s, had.one),
        two: asked_standing(q.two, had.two),
        three: asked_standing(q.three, had.three),
    }
}

// What a function makes of each request and of whether the service is in the rights. It asks that the function may be
// called, so it is not public.
fn beside<U, F: Fn(Request, bool) -> U>(
    q: ByService<Request>,
    had: ByService<bool>,
    f: F,
) -> ByService<U>
    requires { F.IsAlwaysCallable f }
    ensures one { F.post f q.one had.one result.one }
    ensures two { F.post f q.two had.two result.two }
    ensures three { F.post f q.three had.three result.three }
{
    ByService {
        one: f(q.one, had.one),
        two: f(q.two, had.two),
        three: f(q.three, had.three),
    }
}

// Whether the rights lack a required service.
#[tactic(auto, unfolding(crate::specs::Requests::lacks_of))]
fn lacks(rights: Rights, q: ByService<Request>) -> bool
    ensures { result ≡ lacks_of rights q }
{
    beside(q, had(rights), lacking).any()
}

#[tactic(auto, unfolding(crate::specs::Requests::network_refusals_of))]
fn network_refusals(rights: Rights, q: ByService<Request>) -> ByService<Said>
    ensures { result ≡ network_refusals_of rights q }
{
    beside(q, had(rights), network_refusal)
}

#[tactic(auto, unfolding(crate::specs::Requests::passed_requests_of))]
fn passed_requests(rights: Rights, q: ByService<Request>) -> ByService<Said>
    ensures { result ≡ passed_requests_of rights q }
{
    beside(q, had(rights), passed_request)
}

#[tactic(auto, unfolding(crate::specs::Requests::setup_phase_of))]
fn setup_phase(lacking: bool) -> Phase
    ensures { result ≡ setup_phase_of lacking }
{
    if lacking {
        Phase::Ended
    } else {
        Phase::Requested
    }
}

// The caller hears what the rights lack, whether the call ends or goes on.
#[tactic(auto, unfolding(crate::specs::Requests::to_caller_of))]
fn to_caller(lacking: bool, refusals: ByService<Said>) -> Message
    ensures { Some result ≡ to_caller_of lacking refusals }
{
    if lacking {
        saying(Kind::ReleaseComplete, Some(NOT_SUBSCRIBED), refusals, false)
    } else {
        saying(Kind::CallProceeding, None, refusals, false)
    }
}

#[tactic(auto, unfolding(crate::specs::Requests::to_called_of, sent::specs::Message::only_if_of))]
fn to_called(lacking: bool, requests: ByService<Said>, element: bool) -> Option<Message>
    ensures { result ≡ to_called_of lacking requests element }
{
    only_if(!lacking, Some(saying(Kind::Setup, None, requests, element)))
}

// The element goes on where the message does and service 1 remains.
#[tactic(auto, unfolding(crate::specs::Requests::setup_carries_of))]
pub fn opens(rights: Rights, q: ByService<Request>, s: Seen) -> Opening
    ensures { result ≡ opening_of rights q s }
{
    let standings = standings_of(rights, q, s);
    let lacking = lacks(rights, q);
    let carried = !lacking && remains(standings.one);
    let goes = goes_out(s, carried);
    Opening {
        phase: setup_phase(lacking),
        standings,
        note: noted(s, carried),
        dispatch: to_users(
            Some(to_caller(lacking, network_refusals(rights, q))),
            to_called(lacking, passed_requests(rights, q), goes),
            by_one(goes),
        ),
    }
}
