// A whole message written into a buffer that the caller lends, or why it is not; numbers 6 and 7.
#![tactic(auto, using(memory::proofs::Pieces::no_put, crate::proofs::sizes::Sizes::message_is), unfolding(memory::specs::Room::wrote_of, memory::specs::Room::left_of))]

ghost use Rattle.std.specs.Prelude.{◌≡◌};
ghost use Rattle.memory.specs.Room.{Written};
ghost use Rattle.writer.specs.Fitting.{message_fits};
ghost use Rattle.writer.specs.Writing.{message_octets};

use crate::fitting::message_fits;
use crate::pen::Pen;
use crate::sizes::front_size;
use memory::Bar;
use message_fields::Message;

pub mod fitting;
mod pen;
pub mod sizes;

// Writes a message with its user-user element, or no octet at all.
pub fn write_message(buf: &mut [u8], w: Message, user: &[u8]) -> Result<usize, Bar>
    ensures { Written (message_fits w user.now) 0 (message_octets w user.now) buf.old buf.new result }
{
    if !message_fits(w, user) {
        return Err(Bar::Range);
    }
    let n = front_size(w) + user.len();
    if buf.len() < n {
        return Err(Bar::Room);
    }
    let mut pen = Pen::new(buf);
    pen.message(w, user);
    Ok(pen.end())
}
