// What an event is answered, the number of each answer and of each note, and the first of 25, 11 and 24 that applies.
#![tactic(auto)]

ghost use Rattle.std.specs.Prelude.{◌≡◌};
ghost use Rattle.answer.specs.Answer.{taken_of, first_bar, number_of};
ghost use Rattle.user_element.specs.Element.{note_number_of};

use user_element::Note;

// Each answer has its number.
#[derive(Clone, Copy)]
pub enum Answer {
    Taken = 0,
    OutOfPhase = 11,
    NotAnEvent = 12,
    NoService = 13,
    Spent = 14,
    NotOpen = 15,
    NotGranted = 16,
    BadElement = 17,
    AskedRequired = 18,
    OutOfRange = 24,
    Unsound = 25,
}

pub fn taken(a: Answer) -> bool
    ensures { result ≡ taken_of a }
{
    matches!(a, Answer::Taken)
}

// The first of 25, 11 and 24 that applies. Where none does it is Taken, and not None: so the definition has it.
pub fn first_bar(sound: bool, allowed: bool, ranged: bool) -> Answer
    ensures { result ≡ first_bar sound allowed ranged }
{
    if !sound {
        Answer::Unsound
    } else if !allowed {
        Answer::OutOfPhase
    } else if !ranged {
        Answer::OutOfRange
    } else {
        Answer::Taken
    }
}

pub fn number(a: Answer) -> u8
    ensures { result ≡ number_of a }
{
    a as u8
}

pub fn note_number(n: Note) -> u8
    ensures { result ≡ note_number_of n }
{
    n as u8
}
