// A walk over the elements of a message.
ghost use Rattle.std.specs.Prelude.{◌≡◌, ◌-◌, ◌<◌, length};
ghost use Rattle.std.specs.Iterator.{at_most};
ghost use Rattle.elements.specs.Elements.{Ends};
ghost use Rattle.elements.specs.Walk.{Steps};

use message_fields::Fault;

#[tactic(auto, using(crate::proofs::Splitting::ends_alone, crate::proofs::Splitting::ends_lengthy, crate::proofs::Splitting::ends_cut))]
fn end_of(m: &[u8], i: usize) -> Option<usize>
    requires { i < length m.now }
    ensures { Ends m.now i result }
{
    if m[i] >= 0x80 {
        return Some(i + 1);
    }
    let n = usize::from(*m.get(i + 1)?);
    let end = i + 2 + n;
    if end <= m.len() { Some(end) } else { None }
}

// The elements from a place on: of each, where it starts and where it ends, and a fault in place of one that the
// message announces and does not have.
#[derive(Drop)]
pub(crate) struct Walk<'a> {
    message: &'a [u8],
    place: usize,
}

impl<'a> Walk<'a> {
    pub(crate) fn new(message: &'a [u8], place: usize) -> Self
        ensures { (result.message.now ≡ message.now) × (result.place ≡ place) }
    {
        Walk { message, place }
    }
}

impl<'a> Iterator for Walk<'a> {
    type Item = Result<(usize, usize), Fault>;

    ghost next_gives = { Steps };

    ghost remaining = { λ s. at_most (length s.message.now - s.place) };

    fn next(&mut self) -> Option<Result<(usize, usize), Fault>> {
        let start = self.place;
        if start >= self.message.len() {
            return None;
        }
        match end_of(self.message, start) {
            Some(end) => {
                self.place = end;
                Some(Ok((start, end)))
            }
            None => {
                self.place = self.message.len();
                Some(Err(Fault::Short))
            }
        }
    }
}
