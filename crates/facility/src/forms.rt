// The body of a Facility element: one component, read by the form that it has.
#![tactic(auto, unfolding(crate::specs::Forms::service_of, crate::specs::Forms::wish_of, crate::specs::Forms::refusal_of, crate::specs::Forms::invoke_of, crate::specs::Forms::result_of, crate::specs::Forms::error_of, crate::specs::Forms::facility_of, crate::specs::Forms::read_as, crate::specs::Forms::spells, crate::specs::Forms::stand, crate::specs::Forms::size))]

ghost use Rattle.std.specs.Prelude.{◌≡◌};
ghost use Rattle.facility.specs.Forms.{service_of, wish_of, refusal_of, invoke_of, result_of, error_of, facility_of};

use crate::{Component, Refusal, Wish};
use rights::Service;

// This and `refusal_in` are no TryFrom: an octet that names none makes the whole body absent, which is no error
// (`invoke_says`, `error_says`).
fn service_in(x: u8) -> Option<Service>
    ensures { result ≡ service_of x }
{
    match x {
        1 => Some(Service::One),
        2 => Some(Service::Two),
        3 => Some(Service::Three),
        _ => None,
    }
}

fn wish_in(x: u8) -> Wish
    ensures { result ≡ wish_of x }
{
    if x == 0 {
        Wish::Required
    } else {
        Wish::Preferred
    }
}

fn refusal_in(x: u8) -> Option<Refusal>
    ensures { result ≡ refusal_of x }
{
    match x {
        1 => Some(Refusal::ByNetwork),
        2 => Some(Refusal::ByUser),
        _ => None,
    }
}

fn invoke_in(b: &[u8]) -> Option<Component>
    ensures { result ≡ invoke_of b.now }
{
    match b {
        [
            0x91,
            0xA1,
            14,
            2,
            1,
            id,
            2,
            1,
            1,
            0x30,
            6,
            0x81,
            1,
            service,
            0x82,
            1,
            preferred,
        ] if *id < 128 => {
            Some(Component::Invoke(*id, service_in(*service)?, wish_in(*preferred)))
        }
        _ => None,
    }
}

fn result_in(b: &[u8]) -> Option<Component>
    ensures { result ≡ result_of b.now }
{
    match b {
        [0x91, 0xA2, 3, 2, 1, id] if *id < 128 => Some(Component::Accepted(*id)),
        _ => None,
    }
}

fn error_in(b: &[u8]) -> Option<Component>
    ensures { result ≡ error_of b.now }
{
    match b {
        [0x91, 0xA3, 6, 2, 1, id, 2, 1, error] if *id < 128 => {
            Some(Component::Rejected(*id, refusal_in(*error)?))
        }
        _ => None,
    }
}

// What the body of a Facility element says, by the form that it has.
pub fn facility_in(body: &[u8]) -> Option<Component>
    ensures { result ≡ facility_of body.now }
{
    invoke_in(body).or(result_in(body)).or(error_in(body))
}
