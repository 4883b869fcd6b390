// The elements of a single octet: what one says in a message of each kind, and which one counts.
ghost use Rattle.std.specs.Prelude.{◌≡◌};
ghost use Rattle.elements.specs.Single.{single_of, or_single};

use message_fields::Single;
use message_types::{Class, Kind, class_of};

// What a single octet says in a message of this kind: More data belongs to USER INFORMATION only, and a congestion
// level to CONGESTION CONTROL only.
#[tactic(auto, unfolding(crate::specs::Single::single_of))]
pub(crate) fn single_in(k: Kind, x: u8) -> Single
    ensures { result ≡ single_of k x }
{
    match (class_of(k), x) {
        (Class::Information, 0xA0) => Single::MoreData,
        (Class::Congestion, 0xB0) => Single::Ready,
        (Class::Congestion, 0xBF) => Single::NotReady,
        _ => Single::Absent,
    }
}

pub(crate) fn first_single(s: Single, new: Single) -> Single
    ensures { result ≡ or_single s new }
{
    match s {
        Single::Absent => new,
        _ => s,
    }
}
