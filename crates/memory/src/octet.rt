// An octet as a wider number: one of 16 bits, or one that counts octets.
ghost use Rattle.std.specs.Prelude.{◌≡◌, ◌<◌};

// This and the next are `usize::from` and `u16::from`: docs/PROMISES.md promises both by their names.
pub fn wide(x: u8) -> usize
    ensures { result ≡ x }
{
    usize::from(x)
}

// That it is below 256 is promised too: two of them make one number of 16 bits.
pub fn wide16(x: u8) -> u16
    ensures { (result ≡ x) × (result < 256) }
{
    u16::from(x)
}
