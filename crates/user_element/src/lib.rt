// The user-user element of an event: what it is seen to be, its note, and whether it goes out.
#![tactic(auto)]

ghost use Rattle.std.specs.Prelude.{◌≡◌, ◌-◌, ◌&&◌, leb, eqb, length, get_or};
ghost use Rattle.user_element.specs.Element.{user_user, well_formed_of, seen_of, whole_of, noted_of, goes_out_of};

pub mod writable;

// An element shorter than this holds nothing.
const LEAST_ELEMENT: usize = 3;
// The identifier with which a user-user element begins.
const USER_USER: u8 = 126;

// What an element is seen to be. Four values, and no Result: `whole_of` and `noted_of` name each of them.
#[derive(Clone, Copy)]
pub enum Seen {
    Absent,
    Malformed,
    TooLong,
    Whole,
}

// Each note has its number. Clear has one too, and is no None: so `note_number_of` and `noted_of` have it.
#[derive(Clone, Copy)]
pub enum Note {
    Clear = 0,
    Malformed = 1,
    TooLong = 2,
    NotCarried = 3,
}

// Two octets at least: the identifier, and how many octets come after the two.
fn framed(e: &[u8]) -> bool
    ensures { result ≡ (leb 2 (length e.now) && (eqb (get_or e.now 0 0) user_user && eqb (get_or e.now 1 0) (length e.now - 2))) }
{
    matches!(e, [USER_USER, size, body @ ..] if usize::from(*size) == body.len())
}

#[tactic(auto, unfolding(crate::specs::Element::well_formed_of))]
fn well_formed(e: &[u8]) -> bool
    ensures { result ≡ well_formed_of e.now }
{
    e.len() >= LEAST_ELEMENT && framed(e)
}

#[tactic(auto, unfolding(crate::specs::Element::seen_of))]
pub fn look(e: &[u8], limit: u8) -> Seen
    ensures { result ≡ seen_of e.now limit }
{
    if e.is_empty() {
        Seen::Absent
    } else if !well_formed(e) {
        Seen::Malformed
    } else if e.len() <= usize::from(limit) {
        Seen::Whole
    } else {
        Seen::TooLong
    }
}

pub fn whole(s: Seen) -> bool
    ensures { result ≡ whole_of s }
{
    matches!(s, Seen::Whole)
}

// The note, where `carried` says whether the message goes on with service 1.
pub fn noted(s: Seen, carried: bool) -> Note
    ensures { result ≡ noted_of s carried }
{
    match s {
        Seen::Malformed => Note::Malformed,
        Seen::TooLong => Note::TooLong,
        Seen::Whole if !carried => Note::NotCarried,
        Seen::Absent | Seen::Whole => Note::Clear,
    }
}

#[tactic(auto, unfolding(crate::specs::Element::goes_out_of))]
pub fn goes_out(s: Seen, carried: bool) -> bool
    ensures { result ≡ goes_out_of s carried }
{
    whole(s) && carried
}
