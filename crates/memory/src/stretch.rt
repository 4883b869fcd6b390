// A stretch of octets: so many from a place on, as the very part of what the caller has.
ghost use Rattle.std.specs.Prelude.{◌≡◌};
ghost use Rattle.memory.specs.Stretch.{stretch_of};

// n octets from a place on; none where they do not all lie there. `streams::held` is told where its part ends
// (`kept_of`), and this how long it is (`stretch_of`): an element's place says its length.
pub fn stretch(s: &[u8], at: usize, n: usize) -> &[u8]
    ensures { result.now ≡ stretch_of at n s.now }
{
    match s.get(at..) {
        Some(rest) if n <= rest.len() => &rest[..n],
        _ => &[],
    }
}
