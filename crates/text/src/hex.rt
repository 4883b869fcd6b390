// An octet in two hexadecimal digits.
ghost use Rattle.std.specs.Prelude.{◌≡◌, true, ◌<◌};
ghost use Rattle.memory.specs.Room.{Written};
ghost use Rattle.text.specs.Hex.{digit_of, hex_of};

use memory::{Bar, write_octets};

#[tactic(auto, unfolding(crate::specs::Hex::digit_of))]
fn digit(d: u8) -> u8
    requires { d < 16 }
    ensures { result ≡ digit_of d }
{
    if d < 10 { b'0' + d } else { b'A' - 10 + d }
}

// The two digits, the high one first.
pub(crate) fn hex_digits(x: u8) -> [u8; 2]
    ensures { result ≡ hex_of x }
{
    [digit(x / 16), digit(x % 16)]
}

// Writes the two digits from a place on; where they do not fit, nothing.
pub fn write_hex(buf: &mut [u8], at: usize, x: u8) -> Result<usize, Bar>
    ensures { Written true at (hex_of x) buf.old buf.new result }
{
    write_octets(buf, at, &hex_digits(x))
}
