// The reply to an event, a refusal, and the numbers that bar an event from being heard: 25, 11 and 24.
ghost use Rattle.std.specs.Prelude.{◌≡◌};
ghost use Rattle.sent.specs.Dispatch.{to_users_of};
ghost use Rattle.call.specs.Reply.{bar_of, refused_of, heard_of, pick_of};

use crate::Call;
use answer::{Answer, first_bar, taken};
use rights::Service;
use sent::Message;
use sent::dispatch::{Dispatch, nothing_sent, to_users};
use sent::side::Side;
use user_element::Note;

#[derive(Clone, Copy)]
pub struct Reply {
    pub call: Call,
    pub answer: Answer,
    pub note: Note,
    pub dispatch: Dispatch,
}

impl Call {
    // A refusal leaves the record as it was and sends nothing.
    #[tactic(auto, unfolding(crate::specs::Reply::refused_of))]
    pub(crate) fn refused(self, answer: Answer, note: Note) -> Reply
        ensures { result ≡ refused_of self answer note }
    {
        Reply {
            call: self,
            answer,
            note,
            dispatch: nothing_sent(),
        }
    }

    // The reply, unless 25, 11 or 24 bars the event from being heard.
    #[tactic(auto, unfolding(crate::specs::Reply::bar_of, crate::specs::Reply::heard_of))]
    pub(crate) fn heard(self, allowed: bool, ranged: bool, reply: Reply) -> Reply
        ensures { result ≡ heard_of self (bar_of self allowed ranged) reply }
    {
        let bar = first_bar(self.sound(), allowed, ranged);
        if taken(bar) {
            reply
        } else {
            self.refused(bar, Note::Clear)
        }
    }
}

// What is sent in reply to one side's event: `back` goes to that side, `on` to the other.
pub(crate) fn reply_to(
    side: Side,
    back: Option<Message>,
    on: Option<Message>,
    carrier: Option<Service>,
) -> Dispatch
    ensures { result ≡ to_users_of (pick_of side back on) (pick_of side on back) carrier }
{
    match side {
        Side::Calling => to_users(back, on, carrier),
        Side::Called => to_users(on, back, carrier),
    }
}
