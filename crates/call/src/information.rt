// USER INFORMATION: its element looked at, what it meets in its side's meter, and what that makes of the call.
ghost use Rattle.std.specs.Prelude.{◌≡◌};
ghost use Rattle.call.specs.Information.{information_passage_of, carried_of, with_element_of, information_of};

use crate::Call;
use crate::reply::{Reply, reply_to};
use answer::Answer;
use flow_meter::call_meters::spent;
use information_rules::messages::{carrier_of, passage_answer, to_receiver, to_sender};
use information_rules::served;
use phases::is_talking;
use sent::side::Side;
use services::in_force;
use user_element::{Note, Seen, look, noted, whole};

impl Call {
    // What a side's message meets in its meter, what that makes of the call, and the messages.
    #[tactic(auto, unfolding(crate::specs::Information::carried_of, crate::specs::Information::information_passage_of, crate::specs::Information::meters_of, crate::specs::Reply::reply_of))]
    fn carried(self, side: Side, more: bool) -> Reply
        ensures { result ≡ carried_of self side more (information_passage_of self side) }
    {
        let passage = served(
            self.meters.of(side),
            self.phase,
            side,
            self.rights.late,
            in_force(self.standings.two),
            in_force(self.standings.three),
        );
        Reply {
            call: Call {
                meters: spent(self.meters, side, passage),
                ..self
            },
            answer: passage_answer(passage),
            note: Note::Clear,
            dispatch: reply_to(
                side,
                to_sender(passage),
                to_receiver(passage, more),
                carrier_of(passage),
            ),
        }
    }

    // 17: the one refusal that has the element's note.
    #[tactic(auto, unfolding(crate::specs::Information::with_element_of))]
    fn with_element(self, seen: Seen, reply: Reply) -> Reply
        ensures { result ≡ with_element_of self seen reply }
    {
        if whole(seen) {
            reply
        } else {
            self.refused(Answer::BadElement, noted(seen, true))
        }
    }

    #[tactic(auto, unfolding(crate::specs::Information::information_of))]
    pub fn information(self, side: Side, more: bool, element: &[u8]) -> Reply
        ensures { result ≡ information_of self side more element.now }
    {
        let seen = look(element, self.rights.limit);
        let reply = self.with_element(seen, self.carried(side, more));
        self.heard(is_talking(self.phase), true, reply)
    }
}
