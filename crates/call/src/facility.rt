// FACILITY: service 3 asked for, accepted or rejected while connected.
ghost use Rattle.std.specs.Prelude.{◌≡◌, cond};
ghost use Rattle.answer.specs.Answer.{taken_of};
ghost use Rattle.call.specs.Facility.{facility_verdict_of, facility_call_of, passes_facility_of, facility_of};

use crate::Call;
use crate::reply::{Reply, reply_to};
use answer::{Answer, taken};
use facility_rules::messages::{to_asker, to_other};
use facility_rules::{What, facility_asking, facility_meters, facility_three, verdict};
use phases::is_active;
use sent::side::Side;
use services::{ByService, in_force};
use user_element::Note;

impl Call {
    // A refusal leaves the record as it was.
    #[tactic(auto, unfolding(crate::specs::Facility::facility_call_of))]
    fn facility_call(self, side: Side, what: What, answer: Answer) -> Call
        ensures { result ≡ cond (taken_of answer) (facility_call_of self side what) self }
    {
        if !taken(answer) {
            return self;
        }
        Call {
            standings: ByService {
                three: facility_three(self.standings.three, what),
                ..self.standings
            },
            asking: facility_asking(self.asking, side, what),
            meters: facility_meters(self.meters, self.rights.burst, what),
            ..self
        }
    }

    #[tactic(auto, unfolding(crate::specs::Facility::facility_verdict_of, crate::specs::Facility::passes_facility_of, crate::specs::Reply::reply_of))]
    fn passes_facility(self, side: Side, what: What) -> Reply
        ensures { result ≡ passes_facility_of self side what (facility_verdict_of self side what) }
    {
        let force = in_force(self.standings.three);
        let answer = verdict(self.rights, self.asking, force, side, what);
        Reply {
            call: self.facility_call(side, what, answer),
            answer,
            note: Note::Clear,
            dispatch: reply_to(side, to_asker(answer), to_other(answer, what), None),
        }
    }

    #[tactic(auto, unfolding(crate::specs::Facility::facility_of))]
    pub fn facility(self, side: Side, what: What) -> Reply
        ensures { result ≡ facility_of self side what }
    {
        self.heard(
            is_active(self.phase),
            true,
            self.passes_facility(side, what),
        )
    }
}
