// DISCONNECT and RELEASE COMPLETE: what goes on to the other side, and the record in Clearing or Ended.
ghost use Rattle.std.specs.Prelude.{◌≡◌};
ghost use Rattle.call.specs.Disconnect.{passed_on_of, disconnect_of, ends_of, release_complete_of};

use crate::Call;
use crate::reply::{Reply, reply_to};
use answer::Answer;
use cause::GREATEST_CAUSE;
use clearing_rules::{closing_facilities, closing_standing, heard_answers};
use message_types::Kind;
use phases::{Phase, is_live, is_up};
use sent::dispatch::by_one;
use sent::side::Side;
use sent::{bare, saying};
use services::{ByService, Given, in_force};
use user_element::{Note, Seen, goes_out, look, noted};

impl Call {
    // `answers` are those that count. The record keeps what it had, but for service 1 accepted at the last moment.
    #[tactic(auto, unfolding(crate::specs::Disconnect::closed_call_of, crate::specs::Disconnect::passed_on_of, crate::specs::Reply::reply_of))]
    fn passed_on(self, side: Side, cause: u8, answers: ByService<Given>, seen: Seen) -> Reply
        ensures { result ≡ passed_on_of self side cause answers seen }
    {
        let one = closing_standing(self.standings.one, answers.one);
        let carried = in_force(one);
        let goes = goes_out(seen, carried);
        let said = closing_facilities(self.standings, self.asking.calling, answers);
        let on = saying(Kind::Disconnect, Some(cause), said, goes);
        Reply {
            call: Call {
                phase: Phase::Clearing,
                standings: ByService {
                    one,
                    ..self.standings
                },
                ..self
            },
            answer: Answer::Taken,
            note: noted(seen, carried),
            dispatch: reply_to(side, None, Some(on), by_one(goes)),
        }
    }

    #[tactic(auto, unfolding(crate::specs::Disconnect::disconnect_of))]
    pub fn disconnect(
        self,
        side: Side,
        cause: u8,
        answers: ByService<Given>,
        element: &[u8],
    ) -> Reply
        ensures { result ≡ disconnect_of self side cause answers element.now }
    {
        let seen = look(element, self.rights.limit);
        let reply = self.passed_on(side, cause, heard_answers(side, answers), seen);
        self.heard(is_up(self.phase), cause <= GREATEST_CAUSE, reply)
    }

    #[tactic(auto, unfolding(crate::specs::Sound::in_phase_of, crate::specs::Disconnect::ends_of, crate::specs::Reply::reply_of))]
    fn ends(self, side: Side) -> Reply
        ensures { result ≡ ends_of self side }
    {
        let on = bare(Kind::ReleaseComplete, None);
        Reply {
            call: Call {
                phase: Phase::Ended,
                ..self
            },
            answer: Answer::Taken,
            note: Note::Clear,
            dispatch: reply_to(side, None, Some(on), None),
        }
    }

    #[tactic(auto, unfolding(crate::specs::Disconnect::release_complete_of))]
    pub fn release_complete(self, side: Side) -> Reply
        ensures { result ≡ release_complete_of self side }
    {
        self.heard(is_live(self.phase), true, self.ends(side))
    }
}
