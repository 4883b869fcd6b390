// A piece of capture: messages end to end, each after its length in two octets, and the lines of those that are whole.
ghost use Rattle.std.specs.Prelude.{◌≡◌, ◌+◌, ◌<◌, ◌≤◌, length, take, drop, MatchOption};
ghost use Rattle.capture.specs.Frames.{frame_size_of, Digested};

use crate::margins::later;
use message_line::write_line;

// How many octets of a piece of capture were used, and how many octets of lines were written.
#[derive(Clone, Copy)]
pub struct Done {
    pub used: usize,
    pub wrote: usize,
}

// The message that a piece of capture begins with, if all of it is there: it stands after its length, high octet first.
#[tactic(auto, unfolding(crate::specs::Frames::frame_size_of))]
fn first_message(piece: &[u8]) -> Option<&[u8]>
    ensures { MatchOption result (length piece.now < 2 + frame_size_of piece.now) (λ m. (2 + frame_size_of piece.now ≤ length piece.now) × (m.now ≡ take (frame_size_of piece.now) (drop 2 piece.now))) }
{
    let [high, low, rest @ ..] = piece else {
        return None;
    };
    let size = u16::from_be_bytes([*high, *low]);
    rest.get(..usize::from(size))
}

// Writes the lines of the whole messages at the front of a piece of capture, as many as fit the buffer. The piece
// starts at an offset of the capture. What was not used is the front of the next piece. What was used and written is
// counted by the loop itself: the two counts are the answer, as `Digested` says.
pub fn digest(piece: &[u8], offset: u64, out: &mut [u8]) -> Done
    ensures { Digested piece.now offset out.old out.new result }
{
    let mut done = Done { used: 0, wrote: 0 };
    while let Some(message) = first_message(&piece[done.used..]) {
        let start = done.used + 2;
        let Ok(end) = write_line(out, done.wrote, later(offset, start), message) else {
            return done;
        };
        done = Done {
            used: start + message.len(),
            wrote: end,
        };
    }
    done
}
