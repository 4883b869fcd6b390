// The Cause element: 08, its length, and a body with a location octet, perhaps an extension of it, and the value.
ghost use Rattle.std.specs.Prelude.{◌≡◌};
ghost use Rattle.memory.specs.Room.{Written};
ghost use Rattle.cause.specs.Element.{cause_of, cause_fits, cause_octets};

use crate::GREATEST_CAUSE;
use memory::{Bar, write_octets};

// What the body of a Cause element says.
#[tactic(auto, unfolding(crate::specs::Element::cause_of))]
pub fn cause_in(body: &[u8]) -> Option<u8>
    ensures { result ≡ cause_of body.now }
{
    match body {
        [location, value, ..] if *location >= 0x80 => Some(*value % 128),
        [_, _, value, ..] => Some(*value % 128),
        _ => None,
    }
}

// Writes the whole element.
#[tactic(auto, unfolding(memory::specs::Room::wrote_of, memory::specs::Room::left_of))]
pub fn write_cause(buf: &mut [u8], at: usize, value: u8) -> Result<usize, Bar>
    ensures { Written (cause_fits value) at (cause_octets value) buf.old buf.new result }
{
    if value > GREATEST_CAUSE {
        return Err(Bar::Range);
    }
    write_octets(buf, at, &[0x08, 0x02, 0x82, 0x80 + value])
}
