// The tick: both meters refilled where service 3 runs, and ready to each sender whose mark was set.
ghost use Rattle.std.specs.Prelude.{◌≡◌};
ghost use Rattle.call.specs.Tick.{passes_tick_of, tick_of};

use crate::Call;
use crate::reply::Reply;
use answer::Answer;
use flow_meter::call_meters::{ready, refills};
use information_rules::serves_three;
use phases::is_live;
use sent::dispatch::to_users;
use services::in_force;
use user_element::Note;

impl Call {
    #[tactic(auto, unfolding(crate::specs::Information::meters_of, crate::specs::Tick::passes_tick_of, crate::specs::Tick::runs_of))]
    fn passes_tick(self) -> Reply
        ensures { result ≡ passes_tick_of self }
    {
        let runs = serves_three(self.phase, in_force(self.standings.three));
        let calling = ready(self.meters.calling, runs);
        let called = ready(self.meters.called, runs);
        Reply {
            call: Call {
                meters: refills(self.meters, self.rights, runs),
                ..self
            },
            answer: Answer::Taken,
            note: Note::Clear,
            dispatch: to_users(calling, called, None),
        }
    }

    #[tactic(auto, unfolding(crate::specs::Tick::tick_of))]
    pub fn tick(self) -> Reply
        ensures { result ≡ tick_of self }
    {
        self.heard(is_live(self.phase), true, self.passes_tick())
    }
}
