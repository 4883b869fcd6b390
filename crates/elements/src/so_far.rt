// What the elements of a message have said so far, and then one more.
ghost use Rattle.std.specs.Prelude.{◌≡◌};
ghost use Rattle.elements.specs.SoFar.{note_cause, note_facility, note_place, cause_seen};

use cause::element::cause_in;
use facility::Component;
use message_fields::{Facilities, Place, Single};

// What the scan has found so far.
#[derive(Clone, Copy)]
pub struct Found {
    pub single: Single,
    pub cause: Option<Option<u8>>,
    pub facility: Facilities,
    pub user: Option<Place>,
}

pub(crate) fn first_cause(c: Option<Option<u8>>, body: &[u8]) -> Option<Option<u8>>
    ensures { result ≡ note_cause c body.now }
{
    c.or(Some(cause_in(body)))
}

pub(crate) fn with_facility(f: Facilities, new: Option<Component>) -> Facilities
    ensures { result ≡ note_facility f new }
{
    let Some(n) = new else {
        return f;
    };
    match f {
        Facilities::Zero => Facilities::One(n),
        Facilities::One(a) => Facilities::Two(a, n),
        Facilities::Two(a, b) => Facilities::Three(a, b, n),
        Facilities::Three(..) => f,
    }
}

pub(crate) fn first_place(p: Option<Place>, i: usize, n: usize) -> Option<Place>
    ensures { result ≡ note_place p i n }
{
    p.or(Some(Place { at: i, size: n }))
}

pub(crate) fn cause_seen(c: Option<Option<u8>>) -> Option<u8>
    ensures { result ≡ cause_seen c }
{
    c.flatten()
}
