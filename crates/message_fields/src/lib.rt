// The fields of a message by value, and what reading one gives: these and the place of its user-user element, or a
// fault.
#![tactic(auto)]

ghost use Rattle.std.specs.Prelude.{◌≡◌, ◌≤◌};
ghost use Rattle.message_fields.specs.Width.{width_of};

use facility::Component;
use message_types::Kind;

// How many octets the call reference has.
#[derive(Clone, Copy)]
pub enum Width {
    One = 1,
    Two = 2,
}

pub fn width_size(w: Width) -> usize
    ensures { (result ≡ width_of w) × (1 ≤ result) × (result ≤ 2) }
{
    w as usize
}

// The elements of a single octet that belong to us. Absent is a case beside the three and no Option: `or_single`,
// `single_fits`, `single_octets` and `single_column` say case by case what each of the four means.
#[derive(Clone, Copy)]
pub enum Single {
    Absent,
    MoreData,
    Ready,
    NotReady,
}

// What the Facility elements say: at most three components, in order. Four cases, since a message is copied, which a
// list with room for three (`ArrayVec`) is not, and an array of three options could have gaps.
#[derive(Clone, Copy)]
pub enum Facilities {
    Zero,
    One(Component),
    Two(Component, Component),
    Three(Component, Component, Component),
}

#[derive(Clone, Copy)]
pub struct Header {
    pub width: Width,
    pub flag: bool,
    pub reference: u16,
    pub kind: Kind,
}

// A message but for its user-user element, which is never copied.
#[derive(Clone, Copy)]
pub struct Message {
    pub header: Header,
    pub single: Single,
    pub cause: Option<u8>,
    pub facility: Facilities,
}

// Where the user-user element stands in a message: its first octet, and how many octets it has.
#[derive(Clone, Copy)]
pub struct Place {
    pub at: usize,
    pub size: usize,
}

// A message that was taken, and where its user-user element stands.
#[derive(Clone, Copy)]
pub struct Reading {
    pub message: Message,
    pub user: Option<Place>,
}

// Why a message is refused: it ends too early, is too long, begins with another protocol's octet, or has a reference
// length or a type that is none of ours. Each by its number.
#[derive(Clone, Copy)]
pub enum Fault {
    Short = 1,
    TooLong = 2,
    Foreign = 3,
    Reference = 4,
    Kind = 5,
}
