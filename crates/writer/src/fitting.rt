// Whether every field of a message is in range.
ghost use Rattle.std.specs.Prelude.{◌≡◌};
ghost use Rattle.writer.specs.Fitting.{reference_fits, single_fits, causes_fit, facilities_fit, message_fits};

use cause::GREATEST_CAUSE;
use facility::component_fits;
use message_fields::{Facilities, Message, Single, Width};
use message_types::{Class, Kind, class_of};
use user_element::writable::element_fits;

// References 0 to 127 or to 32767, by length.
fn reference_fits(w: Width, r: u16) -> bool
    ensures { result ≡ reference_fits w r }
{
    match w {
        Width::One => r < 128,
        Width::Two => r < 32768,
    }
}

// The single octet that a kind of message may, or must, have.
fn single_fits(k: Kind, s: Single) -> bool
    ensures { result ≡ single_fits k s }
{
    match class_of(k) {
        Class::Plain => matches!(s, Single::Absent),
        Class::Information => matches!(s, Single::Absent | Single::MoreData),
        Class::Congestion => matches!(s, Single::Ready | Single::NotReady),
    }
}

fn causes_fit(c: Option<u8>) -> bool
    ensures { result ≡ causes_fit c }
{
    c.is_none_or(|v| v <= GREATEST_CAUSE)
}

fn facilities_fit(f: Facilities) -> bool
    ensures { result ≡ facilities_fit f }
{
    match f {
        Facilities::Zero => true,
        Facilities::One(a) => component_fits(a),
        Facilities::Two(a, b) => component_fits(a) && component_fits(b),
        Facilities::Three(a, b, c) => component_fits(a) && component_fits(b) && component_fits(c),
    }
}

// Whether every field is in range.
#[tactic(auto, unfolding(crate::specs::Fitting::message_fits))]
pub(crate) fn message_fits(w: Message, user: &[u8]) -> bool
    ensures { result ≡ message_fits w user.now }
{
    reference_fits(w.header.width, w.header.reference)
        && single_fits(w.header.kind, w.single)
        && causes_fit(w.cause)
        && facilities_fit(w.facility)
        && element_fits(user)
}
