// A number in decimal digits.
ghost use Rattle.std.specs.Prelude.{◌≡◌, true};
ghost use Rattle.memory.specs.Room.{Written};
ghost use Rattle.text.specs.Decimal.{decimal_of};

use itoa::Buffer;
use memory::{Bar, write_octets};

// Writes the digits from a place on; where they do not fit, nothing.
#[tactic(auto, using(crate::proofs::Digits::as_printed))]
pub fn write_decimal(buf: &mut [u8], at: usize, n: u64) -> Result<usize, Bar>
    ensures { Written true at (decimal_of n) buf.old buf.new result }
{
    let mut digits = Buffer::new();
    write_octets(buf, at, digits.format(n).as_bytes())
}
