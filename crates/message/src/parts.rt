// The octets of a message that its places tell of: those at a place, and the user-user element.
ghost use Rattle.std.specs.Prelude.{◌≡◌};
ghost use Rattle.message.specs.Parts.{part_of, user_user_of};

use crate::read_message;
use memory::stretch::stretch;
use message_fields::Place;

// The octets of a message at a place; none where the place does not lie in it.
pub fn part(m: &[u8], place: Option<Place>) -> &[u8]
    ensures { result.now ≡ part_of m.now place }
{
    match place {
        None => &[],
        Some(p) => stretch(m, p.at, p.size),
    }
}

// The whole user-user element, as the very part of the message; empty where there is none or the message is refused.
#[tactic(auto, unfolding(crate::specs::Parts::user_user_of))]
pub fn user_user(m: &[u8]) -> &[u8]
    ensures { result.now ≡ user_user_of m.now }
{
    match read_message(m) {
        Ok(reading) => part(m, reading.user),
        Err(_) => &[],
    }
}
