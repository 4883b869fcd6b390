// How many octets a message that is written has before its user-user element.
ghost use Rattle.std.specs.Prelude.{◌≡◌, ◌≤◌, length};
ghost use Rattle.facility.specs.Filling.{facility_octets};
ghost use Rattle.writer.specs.Writing.{single_octets, causes_octets, facilities_octets, front_octets};
ghost use Rattle.message_fields.specs.Width.{header_size};

use facility::Component;
use message_fields::{Facilities, Message, Single, Width, width_size};

fn header_size(w: Width) -> usize
    ensures { result ≡ header_size w }
{
    width_size(w) + 3
}

fn single_size(s: Single) -> usize
    ensures { result ≡ length (single_octets s) }
{
    match s {
        Single::Absent => 0,
        Single::MoreData | Single::Ready | Single::NotReady => 1,
    }
}

fn cause_size(c: Option<u8>) -> usize
    ensures { result ≡ length (causes_octets c) }
{
    if c.is_some() { 4 } else { 0 }
}

#[tactic(auto, unfolding(facility::specs::Filling::filled))]
fn component_size(c: Component) -> usize
    ensures { (result ≡ length (facility_octets c)) × (result ≤ 19) }
{
    match c {
        Component::Invoke(..) => 19,
        Component::Accepted(..) => 8,
        Component::Rejected(..) => 11,
    }
}

fn facilities_size(f: Facilities) -> usize
    ensures { result ≡ length (facilities_octets f) }
{
    match f {
        Facilities::Zero => 0,
        Facilities::One(a) => component_size(a),
        Facilities::Two(a, b) => component_size(a) + component_size(b),
        Facilities::Three(a, b, c) => component_size(a) + component_size(b) + component_size(c),
    }
}

// How many octets the message has before its user-user element.
#[tactic(auto, using(crate::proofs::sizes::Sizes::small, crate::proofs::sizes::Sizes::front_is))]
pub(crate) fn front_size(w: Message) -> usize
    ensures { (result ≡ length (front_octets w)) × (result ≤ 67) }
{
    header_size(w.header.width)
        + single_size(w.single)
        + cause_size(w.cause)
        + facilities_size(w.facility)
}
