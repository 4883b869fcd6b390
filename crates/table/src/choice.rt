// Which record an event goes to, or the number that the table gives.
ghost use Rattle.std.specs.Prelude.{◌≡◌};
ghost use Rattle.table.specs.Choice.{wanted_of, chosen_of};

use crate::verdict::Verdict;
use crate::{find, place, sound};
use answer::Answer;
use call::Call;
use event::Event;
use rights::{reference_fits, rights_fit};

// What SETUP asks for: a new place, under its own reference, with reference and rights in range or not. ranged is a
// flag beside the reference and no Result over it: `meant_reference_of` is the reference of a SETUP in either case.
#[derive(Clone, Copy)]
pub struct Opening {
    pub reference: u16,
    pub ranged: bool,
}

// The opening that an event asks for. Any event but SETUP wants the place of a call that is there.
fn wants(event: Event) -> Option<Opening>
    ensures { result ≡ wanted_of event }
{
    match event {
        Event::Setup {
            reference,
            rights,
            ..
        } => Some(Opening {
            reference,
            ranged: reference_fits(reference) && rights_fit(rights),
        }),
        _ => None,
    }
}

// What the table says of an event.
#[tactic(auto, unfolding(crate::specs::Choice::choose_of, crate::specs::Choice::chosen_of))]
pub(crate) fn chosen(t: &[Call], reference: u16, event: Event) -> Result<usize, Verdict>
    ensures { result ≡ chosen_of t.now reference event }
{
    if !sound(t) {
        return Err(Verdict::Heard(Answer::Unsound));
    }
    match wants(event) {
        Some(opening) if !opening.ranged => Err(Verdict::Heard(Answer::OutOfRange)),
        Some(opening) => match find(t, opening.reference) {
            Some(_) => Err(Verdict::Held),
            None => place(t).ok_or(Verdict::NoPlace),
        },
        None => find(t, reference).ok_or(Verdict::NoCall),
    }
}
