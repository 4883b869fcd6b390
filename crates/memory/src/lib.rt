// Memory that the caller lends: what is put into it or why nothing is, and what is kept of it.
#![tactic(auto)]

ghost use Rattle.std.specs.Prelude.{◌≡◌, true, ◌≤◌, ◌+◌, length};
ghost use Rattle.memory.specs.Putting.{end_of};
ghost use Rattle.memory.specs.Room.{placed, Written, Kept};

pub mod octet;
pub mod stretch;

// Why nothing was written.
#[derive(Clone, Copy, PartialEq, Eq)]
pub enum Bar {
    Room,
    Range,
}

// Where the next piece starts; 0 where a piece was refused, as the definition `end_of` says it: who writes several
// pieces has room for each, and asks no more.
pub fn end_of(w: Result<usize, Bar>) -> usize
    ensures { result ≡ end_of w }
{
    w.unwrap_or(0)
}

// Puts a piece that fits. It asks for that, so it is not public.
#[tactic(auto, unfolding(crate::specs::Room::placed))]
fn put(buf: &mut [u8], at: usize, piece: &[u8]) -> usize
    requires { at + length piece.now ≤ length buf.old }
    ensures { (result ≡ at + length piece.now) × (buf.new ≡ placed at piece.now buf.old) }
{
    let end = at + piece.len();
    buf[at..end].copy_from_slice(piece);
    end
}

// Puts a piece into the buffer from a place on; where it does not fit, nothing. A buffer and a place in it are two
// parameters, here and wherever octets are written: `Written` names both, and of the buffer before and after.
#[tactic(auto, unfolding(crate::specs::Room::wrote_of, crate::specs::Room::left_of))]
pub fn write_octets(buf: &mut [u8], at: usize, piece: &[u8]) -> Result<usize, Bar>
    ensures { Written true at piece.now buf.old buf.new result }
{
    if at > buf.len() || buf.len() - at < piece.len() {
        return Err(Bar::Room);
    }
    Ok(put(buf, at, piece))
}

// Moves the octets of a buffer from a place to another to its front, and answers how many they are: what was not used
// of a piece is the front of the next. Those that stand there already are not copied.
#[tactic(auto, unfolding(crate::specs::Room::kept_of, crate::specs::Room::placed))]
pub fn keep(buf: &mut [u8], from: usize, to: usize) -> usize
    ensures { Kept from to buf.old buf.new result }
{
    if from > to || to > buf.len() {
        return 0;
    }
    if from == 0 {
        return to;
    }
    buf.copy_within(from..to, 0);
    to - from
}
