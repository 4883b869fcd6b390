// Any event, handed to the method of its kind.
ghost use Rattle.std.specs.Prelude.{◌≡◌};
ghost use Rattle.call.specs.Step.{not_an_event_of, step_of};

use crate::Call;
use crate::reply::Reply;
use answer::Answer;
use event::Event;
use user_element::Note;

impl Call {
    // CALL PROCEEDING is the box's own message and no event.
    #[tactic(auto, unfolding(crate::specs::Step::not_an_event_of))]
    pub fn call_proceeding(self) -> Reply
        ensures { result ≡ not_an_event_of self }
    {
        if self.sound() {
            self.refused(Answer::NotAnEvent, Note::Clear)
        } else {
            self.refused(Answer::Unsound, Note::Clear)
        }
    }

    // So is CONGESTION CONTROL. Each has a method: `not_an_event_of` is promised of both by name.
    pub fn congestion_control(self) -> Reply
        ensures { result ≡ not_an_event_of self }
    {
        self.call_proceeding()
    }

    // FACILITY, RELEASE COMPLETE and the tick have no element, so what stands beside them is not looked at.
    pub fn step(self, event: Event, element: &[u8]) -> Reply
        ensures { result ≡ step_of self event element.now }
    {
        match event {
            Event::Setup {
                reference,
                rights,
                requests,
            } => self.setup(reference, rights, requests, element),
            Event::Alerting { answers } => self.alerting(answers, element),
            Event::Connect { answers } => self.connect(answers, element),
            Event::Information { side, more } => self.information(side, more, element),
            Event::Facility { side, what } => self.facility(side, what),
            Event::Disconnect {
                side,
                cause,
                answers,
            } => self.disconnect(side, cause, answers, element),
            Event::ReleaseComplete { side } => self.release_complete(side),
            Event::Tick => self.tick(),
            Event::CallProceeding => self.call_proceeding(),
            Event::CongestionControl => self.congestion_control(),
        }
    }
}
