// ALERTING and CONNECT: the called side answers what was asked for.
ghost use Rattle.std.specs.Prelude.{◌≡◌};
ghost use Rattle.call.specs.Answering.{goes_on_of, clears_of, answered_of, alerting_of, connect_of};

use crate::Call;
use crate::reply::Reply;
use answer::Answer;
use answering_rules::effects::{declines, failed, in_force_after, settles, tells};
use answering_rules::{Fate, alerting_fates, connect_fates};
use cause::{CLEARED, NOT_ACCEPTED};
use message_types::Kind;
use phases::{Phase, is_connectable, is_requested};
use sent::dispatch::{by_one, to_users};
use sent::{bare, saying};
use services::{ByService, Given, in_force};
use user_element::{Seen, goes_out, look, noted};

impl Call {
    // The message goes on to the caller with the answers, and the call enters its next phase.
    #[tactic(auto, unfolding(crate::specs::Answering::answered_call_of, crate::specs::Answering::goes_on_of))]
    fn goes_on(self, kind: Kind, next: Phase, fates: ByService<Fate>, seen: Seen) -> Reply
        ensures { result ≡ goes_on_of self kind next fates seen }
    {
        let standings = settles(self.standings, fates);
        let carried = in_force(standings.one);
        let goes = goes_out(seen, carried);
        Reply {
            call: Call {
                phase: next,
                standings,
                meters: in_force_after(self.meters, self.rights.burst, fates.three),
                ..self
            },
            answer: Answer::Taken,
            note: noted(seen, carried),
            dispatch: to_users(
                Some(saying(kind, None, tells(fates), goes)),
                None,
                by_one(goes),
            ),
        }
    }

    // A required service was not accepted: both users are cleared, and the element goes nowhere.
    #[tactic(auto, unfolding(crate::specs::Sound::in_phase_of, crate::specs::Answering::clears_of))]
    fn clears(self, fates: ByService<Fate>, seen: Seen) -> Reply
        ensures { result ≡ clears_of self fates seen }
    {
        Reply {
            call: Call {
                phase: Phase::Clearing,
                ..self
            },
            answer: Answer::Taken,
            note: noted(seen, false),
            dispatch: to_users(
                Some(saying(Kind::Disconnect, Some(NOT_ACCEPTED), declines(fates), false)),
                Some(bare(Kind::Disconnect, Some(CLEARED))),
                None,
            ),
        }
    }

    // One message with answers: it goes on, unless a required service failed.
    #[tactic(auto, unfolding(crate::specs::Answering::answered_of))]
    fn answered(self, kind: Kind, next: Phase, fates: ByService<Fate>, element: &[u8]) -> Reply
        ensures { result ≡ answered_of self kind next fates element.now }
    {
        let seen = look(element, self.rights.limit);
        if failed(fates) {
            self.clears(fates, seen)
        } else {
            self.goes_on(kind, next, fates, seen)
        }
    }

    #[tactic(auto, unfolding(crate::specs::Answering::alerting_of))]
    pub fn alerting(self, answers: ByService<Given>, element: &[u8]) -> Reply
        ensures { result ≡ alerting_of self answers element.now }
    {
        let fates = alerting_fates(self.standings, answers);
        let reply = self.answered(Kind::Alerting, Phase::Alerting, fates, element);
        self.heard(is_requested(self.phase), true, reply)
    }

    #[tactic(auto, unfolding(crate::specs::Answering::connect_of))]
    pub fn connect(self, answers: ByService<Given>, element: &[u8]) -> Reply
        ensures { result ≡ connect_of self answers element.now }
    {
        // ALERTING came exactly if the call is no longer Requested.
        let alerted = !is_requested(self.phase);
        let fates = connect_fates(alerted, self.standings, answers);
        let reply = self.answered(Kind::Connect, Phase::Active, fates, element);
        self.heard(is_connectable(self.phase), true, reply)
    }
}
