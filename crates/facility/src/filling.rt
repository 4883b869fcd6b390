// The Facility element of a component: 1C, its length, and its form filled in.
ghost use Rattle.std.specs.Prelude.{◌≡◌};
ghost use Rattle.memory.specs.Room.{Written};
ghost use Rattle.facility.specs.Facility.{service_octet, component_fits};
ghost use Rattle.facility.specs.Filling.{wish_octet, refusal_octet, facility_octets};

use crate::{Component, Refusal, Wish, component_fits};
use memory::{Bar, write_octets};
use rights::Service;

// The cast of this and the next two stands in a function of its own: `service_octet`, `wish_octet` and `refusal_octet`
// are shown case by case for it, and not within a whole form.
fn service_octet(s: Service) -> u8
    ensures { result ≡ service_octet s }
{
    s as u8
}

fn wish_octet(w: Wish) -> u8
    ensures { result ≡ wish_octet w }
{
    w as u8
}

fn refusal_octet(e: Refusal) -> u8
    ensures { result ≡ refusal_octet e }
{
    e as u8
}

// The element of a request: the service that is asked for, and whether it is preferred or required.
#[tactic(auto, unfolding(crate::specs::Filling::filled))]
fn invoke_octets(id: u8, s: Service, w: Wish) -> [u8; 19]
    ensures { result ≡ facility_octets (Component.Invoke id s w) }
{
    let service = service_octet(s);
    let wish = wish_octet(w);
    [
        0x1C, 17, 0x91, 0xA1, 14, 2, 1, id, 2, 1, 1, 0x30, 6, 0x81, 1, service, 0x82, 1, wish,
    ]
}

// The element of a rejection: by whom.
#[tactic(auto, unfolding(crate::specs::Filling::filled))]
fn error_octets(id: u8, e: Refusal) -> [u8; 11]
    ensures { result ≡ facility_octets (Component.Rejected id e) }
{
    [0x1C, 9, 0x91, 0xA3, 6, 2, 1, id, 2, 1, refusal_octet(e)]
}

// Writes the whole element into a buffer from a place on: `Written` names both.
#[tactic(auto, unfolding(crate::specs::Filling::filled, memory::specs::Room::wrote_of, memory::specs::Room::left_of))]
pub fn write_facility(buf: &mut [u8], at: usize, c: Component) -> Result<usize, Bar>
    ensures { Written (component_fits c) at (facility_octets c) buf.old buf.new result }
{
    if !component_fits(c) {
        return Err(Bar::Range);
    }
    match c {
        Component::Invoke(id, s, w) => write_octets(buf, at, &invoke_octets(id, s, w)),
        Component::Accepted(id) => { write_octets(buf, at, &[0x1C, 6, 0x91, 0xA2, 3, 2, 1, id]) }
        Component::Rejected(id, e) => write_octets(buf, at, &error_octets(id, e)),
    }
}
