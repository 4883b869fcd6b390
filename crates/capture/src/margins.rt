// What stands around the lines of a capture: the first line, the last, the length before a message, and offsets.
ghost use Rattle.std.specs.Prelude.{◌≡◌, true};
ghost use Rattle.memory.specs.Room.{Written};
ghost use Rattle.capture.specs.Margins.{later_of, first_line, last_line};

use memory::{Bar, write_octets};

// The offset that lies so many octets after another; past the largest number, that number.
#[tactic(auto, unfolding(crate::specs::Margins::later_of))]
pub fn later(offset: u64, n: usize) -> u64
    ensures { result ≡ later_of offset n }
{
    offset.saturating_add(n as u64)
}

// Writes the line that comes before all others.
pub fn write_first(buf: &mut [u8], at: usize) -> Result<usize, Bar>
    ensures { Written true at first_line buf.old buf.new result }
{
    write_octets(
        buf,
        at,
        b"at number type flag ref cause single facility element\n",
    )
}

// Writes the line that comes after all others where so many octets were left at the capture's end: none, or `cut`.
#[tactic(auto, unfolding(crate::specs::Margins::last_line))]
pub fn write_last(buf: &mut [u8], at: usize, left: usize) -> Result<usize, Bar>
    ensures { Written true at (last_line left) buf.old buf.new result }
{
    let line: &[u8] = if left == 0 { b"" } else { b"cut\n" };
    write_octets(buf, at, line)
}
