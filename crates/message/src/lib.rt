// A whole message read: its header, and then its elements; numbers 1 to 5. No octet of it is copied.
#![tactic(auto)]

ghost use Rattle.std.specs.Prelude.{◌≡◌, ◌<◌};
ghost use Rattle.message.specs.Reading.{reference_of, headed_of, read_of};

use elements::scan;
use message_fields::{Fault, Header, Reading, Width, width_size};
use message_types::kind_in;

pub mod parts;

// The reference without its flag: of its one octet a, or of its two octets a and b.
fn reference(w: Width, a: u8, b: u8) -> u16
    ensures { result ≡ reference_of w a b }
{
    match w {
        Width::One => u16::from(a % 128),
        Width::Two => u16::from_be_bytes([a % 128, b]),
    }
}

// The rest of the header, and the elements, where the reference has this many octets.
#[tactic(auto, unfolding(crate::specs::Reading::headed_of))]
fn headed(m: &[u8], w: Width) -> Result<Reading, Fault>
    ensures { result ≡ headed_of w m.now }
{
    let n = width_size(w);
    if m.len() < n + 3 {
        return Err(Fault::Short);
    }
    let kind = kind_in(m[n + 2]).ok_or(Fault::Kind)?;
    let header = Header {
        width: w,
        flag: m[2] >= 0x80,
        reference: reference(w, m[2], m[3]),
        kind,
    };
    scan(m, n + 3, header)
}

#[tactic(auto, unfolding(crate::specs::Reading::read_of))]
pub fn read_message(m: &[u8]) -> Result<Reading, Fault>
    ensures { result ≡ read_of m.now }
{
    if m.len() > 260 {
        return Err(Fault::TooLong);
    }
    match m {
        [] | [8] => Err(Fault::Short),
        [8, 1, ..] => headed(m, Width::One),
        [8, 2, ..] => headed(m, Width::Two),
        [8, ..] => Err(Fault::Reference),
        _ => Err(Fault::Foreign),
    }
}
