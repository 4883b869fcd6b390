// A call that goes from event to event, and the sheet on which each is shown.
use crate::show::{Sheet, show_lent, show_reply};
use call::Call;
use event::Event;
use facility_rules::What;
use flow_meter::Meter;
use flow_meter::lent::{spend, spent_number, tick, ticked_number};
use rights::Rights;
use sent::side::Side;
use services::{ByService, Given, Request};

#[derive(Drop)]
pub(crate) struct Run {
    pub(crate) sheet: Sheet,
    pub(crate) call: Call,
}

impl Run {
    pub(crate) fn new() -> Self {
        Run {
            sheet: Sheet::new(),
            call: Call::fresh(),
        }
    }

    // An event, and what it is answered.
    fn answer(&mut self, name: &[u8], event: Event, element: &[u8]) {
        let reply = self.call.step(event, element);
        show_reply(&mut self.sheet, name, reply);
        self.call = reply.call;
    }

    pub(crate) fn step(&mut self, name: &[u8], event: Event, element: &[u8]) {
        self.answer(name, event, element);
        self.sheet.put(b"\n");
    }

    // SETUP of a new call.
    pub(crate) fn sets_up(
        &mut self,
        name: &[u8],
        rights: Rights,
        requests: ByService<Request>,
        element: &[u8],
    ) {
        self.call = Call::fresh();
        let event = Event::Setup {
            reference: 5,
            rights,
            requests,
        };
        self.step(name, event, element);
    }

    pub(crate) fn connects(&mut self, name: &[u8], answers: ByService<Given>) {
        self.step(name, Event::Connect { answers }, b"");
    }

    pub(crate) fn says(&mut self, name: &[u8], side: Side) {
        self.step(
            name,
            Event::Information { side, more: false },
            b"~\x02\x04C",
        );
    }

    pub(crate) fn asks(&mut self, name: &[u8], side: Side, what: What) {
        self.step(name, Event::Facility { side, what }, b"");
    }

    // A message of the calling side in Active, with late delivery and services 2 and 3 in force. The meter of that side
    // is lent by the host.
    pub(crate) fn says_beside(&mut self, name: &[u8], meter: &mut Meter) {
        let event = Event::Information {
            side: Side::Calling,
            more: false,
        };
        self.answer(name, event, b"~\x02\x04C");
        let spent = spend(meter, 1, true, true);
        show_lent(&mut self.sheet, spent_number(spent), *meter);
    }

    pub(crate) fn ticks_beside(&mut self, name: &[u8], meter: &mut Meter) {
        self.answer(name, Event::Tick, b"");
        let ticked = tick(meter, 1, 1);
        show_lent(&mut self.sheet, ticked_number(ticked), *meter);
    }
}
