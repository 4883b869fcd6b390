// What an event makes of the record that it goes to, by value.
ghost use Rattle.std.specs.Prelude.{◌≡◌};
ghost use Rattle.table.specs.Settle.{changes_of, table_refusal_of, settled_of};

use crate::verdict::Verdict;
use answer::Answer;
use call::Call;
use event::Event;
use sent::dispatch::{Dispatch, nothing_sent};
use user_element::Note;

#[derive(Clone, Copy)]
pub struct Outcome {
    pub verdict: Verdict,
    pub note: Note,
    pub dispatch: Dispatch,
}

// call: what the place holds afterwards.
#[derive(Clone, Copy)]
pub struct Settled {
    pub call: Call,
    pub outcome: Outcome,
}

// Of the refusals, only 14 may change a record.
fn changes(a: Answer) -> bool
    ensures { result ≡ changes_of a }
{
    matches!(a, Answer::Taken | Answer::Spent)
}

// A number of the table's: nothing is noted and nothing sent.
#[tactic(auto, unfolding(crate::specs::Settle::table_refusal_of))]
pub(crate) fn refusal(verdict: Verdict) -> Outcome
    ensures { result ≡ table_refusal_of verdict }
{
    Outcome {
        verdict,
        note: Note::Clear,
        dispatch: nothing_sent(),
    }
}

// SETUP starts a new call, whatever its place held.
#[tactic(auto, unfolding(crate::specs::Settle::settled_of, crate::specs::Settle::subject_of, crate::specs::Settle::record_kept_of, crate::specs::Settle::heard_outcome_of))]
pub(crate) fn settles(c: Call, event: Event, element: &[u8]) -> Settled
    ensures { result ≡ settled_of c event element.now }
{
    let subject = if matches!(event, Event::Setup { .. }) {
        Call::fresh()
    } else {
        c
    };
    let reply = subject.step(event, element);
    Settled {
        call: if changes(reply.answer) { reply.call } else { c },
        outcome: Outcome {
            verdict: Verdict::Heard(reply.answer),
            note: reply.note,
            dispatch: reply.dispatch,
        },
    }
}
