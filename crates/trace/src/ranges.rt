// Whether the fields of a record are in range, and the first that is not.
ghost use Rattle.std.specs.Prelude.{◌≡◌};
ghost use Rattle.rights.specs.declared.Service.{Service};
ghost use Rattle.trace.specs.Ranges.{up_to_of, three_of, element_out_of, first_out_of};
ghost use Rattle.trace.specs.declared.Field.{Field};

use crate::Field;
use crate::element_field::{form_fits, zeros_fit};
use crate::kind::Layout;
use crate::values::octet_at;
use rights::Service;
use services::{Given, Request};

// What a message says of each of the three services stands in an octet for each: the field that the octet is.
trait OfService {
    ghost field_of: { Service → Field };

    fn field(service: Service) -> Field
        ensures { result ≡ field_of service };
}

impl OfService for Request {
    ghost field_of = { Field.Request };

    fn field(service: Service) -> Field {
        Field::Request(service)
    }
}

impl OfService for Given {
    ghost field_of = { Field.Answer };

    fn field(service: Service) -> Field {
        Field::Answer(service)
    }
}

// An octet of the field at a place, held to the most that it may be, where the kind has the field. Each test here gives
// the field that it found out of range, and all eight are joined by `or`, as the definition `first_out_of` says it.
#[tactic(auto, unfolding(crate::specs::Ranges::up_to_of))]
fn up_to(t: &[u8], f: Field, most: u8, p: Option<usize>, i: usize) -> Option<Field>
    ensures { result ≡ up_to_of f most p i t.now }
{
    match p {
        Some(p) if octet_at(t, p, i) > most => Some(f),
        _ => None,
    }
}

// Three requests or answers.
#[tactic(auto, unfolding(crate::specs::Ranges::three_of), using(crate::proofs::First::or_first, crate::proofs::First::first_assoc))]
fn three_out<V: OfService>(t: &[u8], p: Option<usize>) -> Option<Field>
    ensures { result ≡ three_of V.field_of p t.now }
{
    let one = up_to(t, V::field(Service::One), 2, p, 0);
    let two = up_to(t, V::field(Service::Two), 2, p, 1);
    let three = up_to(t, V::field(Service::Three), 2, p, 2);
    one.or(two).or(three)
}

#[tactic(auto, unfolding(crate::specs::Ranges::element_out_of))]
fn element_out(t: &[u8], p: Option<usize>) -> Option<Field>
    ensures { result ≡ element_out_of p t.now }
{
    let p = p?;
    if !form_fits(t, p) {
        Some(Field::Element)
    } else if !zeros_fit(t, p) {
        Some(Field::Zeros)
    } else {
        None
    }
}

// The first field of a record, from left to right, that is out of range.
#[tactic(auto, unfolding(crate::specs::Ranges::first_out_of), using(crate::proofs::First::or_first, crate::proofs::First::first_assoc))]
pub(crate) fn first_out(l: Layout, t: &[u8]) -> Option<Field>
    ensures { result ≡ first_out_of l t.now }
{
    up_to(t, Field::Late, 1, l.rights, 1)
        .or(up_to(t, Field::Leave, 1, l.rights, 2))
        .or(up_to(t, Field::Side, 1, l.side, 0))
        .or(up_to(t, Field::What, 3, l.what, 0))
        .or(up_to(t, Field::Cause, 127, l.cause, 0))
        .or(three_out::<Request>(t, l.requests))
        .or(three_out::<Given>(t, l.answers))
        .or(element_out(t, l.element))
}
