// Runs cases of calls that are easy to get wrong, and a whole call with every service. It prints a line for each event:
// its name, the answer, the note, and the message to the calling and to the called user, with its type, its cause and
// what it says of services. Where a meter is lent beside the call, what that answers and holds follows.
#![tactic(auto)]

mod run;
mod show;

use crate::run::Run;
use event::Event;
use facility_rules::What;
use flow_meter::Meter;
use rights::Rights;
use sent::side::Side;
use services::{ByService, Given, Request};
use streams::{Host, send};

fn rights(services: u8, late: bool, limit: u8) -> Rights {
    Rights {
        services,
        late,
        leave: false,
        limit,
        burst: 1,
        refill: 1,
    }
}

// Of no service. Written out, and not by `ByService::same`: a constant may call no function.
const NOTHING_ASKED: ByService<Request> = ByService {
    one: Request::Unasked,
    two: Request::Unasked,
    three: Request::Unasked,
};

// A call in Alerting with every service asked for, 1 and 2 in force, and late delivery.
fn alerted(run: &mut Run) {
    let all = ByService::same(Request::Preferred);
    run.sets_up(
        b"setup, all three preferred",
        rights(7, true, 5),
        all,
        b"~\x02\x04A",
    );
    let event = Event::Alerting {
        answers: ByService::same(Given::Accepted),
    };
    run.step(b"alerting, accepted", event, b"~\x02\x04B");
}

// A whole call with every service. A late message once the service 2 count is spent goes on under service 3.
fn whole(run: &mut Run) {
    alerted(run);
    run.says(b"alerting, first message", Side::Called);
    run.says(b"alerting, second message", Side::Called);
    run.says(b"alerting, third message", Side::Called);
    run.connects(b"connect, accepted", ByService::same(Given::Accepted));
    run.says(b"late, first message", Side::Calling);
    run.says(b"late, second message", Side::Calling);
    run.says(b"late, count spent, credit left", Side::Calling);
    run.says(b"credit spent", Side::Calling);
    run.says(b"credit spent, once more", Side::Calling);
    run.step(b"tick", Event::Tick, b"");
    run.says(b"after the tick", Side::Calling);
    let disconnect = Event::Disconnect {
        side: Side::Calling,
        cause: 16,
        answers: ByService::same(Given::Accepted),
    };
    run.step(b"disconnect", disconnect, b"~\x02\x04E");
    let release = Event::ReleaseComplete { side: Side::Called };
    run.step(b"release complete", release, b"");
    run.says(b"user information on an ended record", Side::Called);
}

// Lines of different limits: the same element is over one limit and at the other.
fn limits(run: &mut Run) {
    run.sets_up(
        b"five octets, limit four",
        rights(1, false, 4),
        NOTHING_ASKED,
        b"~\x03\x04AB",
    );
    run.sets_up(
        b"five octets, limit five",
        rights(1, false, 5),
        NOTHING_ASKED,
        b"~\x03\x04AB",
    );
    run.sets_up(b"two octets", rights(1, false, 5), NOTHING_ASKED, b"~\x00");
    run.sets_up(
        b"three octets",
        rights(1, false, 5),
        NOTHING_ASKED,
        b"~\x01\x04",
    );
}

// A required service that the rights lack; one that is not answered, and one that is rejected: in CONNECT, where the
// box clears the call, and in the called user's own clearing message, whose cause goes on.
fn required(run: &mut Run) {
    let two = ByService {
        two: Request::Required,
        ..NOTHING_ASKED
    };
    let three = ByService {
        three: Request::Required,
        ..NOTHING_ASKED
    };
    run.sets_up(
        b"service 2 required, not in the rights",
        rights(5, false, 131),
        two,
        b"",
    );
    run.sets_up(b"service 3 required", rights(7, false, 131), three, b"");
    let set_up = run.call;
    run.connects(b"connect, silent", ByService::same(Given::Silent));
    run.call = set_up;
    run.connects(b"connect, rejected", ByService::same(Given::Rejected));
    run.call = set_up;
    let event = Event::Disconnect {
        side: Side::Called,
        cause: 29,
        answers: ByService::same(Given::Rejected),
    };
    run.step(b"called disconnect, rejected", event, b"");
}

// A call in Active with the right to service 3, which nobody asked for in SETUP.
fn connected(run: &mut Run) {
    run.sets_up(
        b"setup, nothing asked",
        rights(4, false, 131),
        NOTHING_ASKED,
        b"",
    );
    run.connects(b"connect, nothing due", ByService::same(Given::Silent));
}

// Service 3 asked for while connected: without leave, as required, and then taken and accepted.
fn facilities(run: &mut Run) {
    connected(run);
    run.asks(
        b"called side asks without leave",
        Side::Called,
        What::Preferred,
    );
    run.asks(b"asked as required", Side::Calling, What::Required);
    run.asks(b"asked as preferred", Side::Calling, What::Preferred);
    run.asks(b"asked again", Side::Calling, What::Preferred);
    run.asks(b"accepted", Side::Called, What::Accept);
    run.says(b"under service 3", Side::Called);
}

// Services that fail in one CONNECT without ALERTING: 1 is not answered and 3 is rejected, and the caller hears 69,
// whichever it was.
fn fails(run: &mut Run) {
    let rejects = ByService {
        three: Given::Rejected,
        ..ByService::same(Given::Silent)
    };
    let both = ByService {
        one: Request::Required,
        three: Request::Required,
        ..NOTHING_ASKED
    };
    run.sets_up(b"1 and 3 required", rights(7, false, 131), both, b"");
    run.connects(b"connect, 1 silent, 3 rejected", rejects);
    let three = ByService {
        one: Request::Preferred,
        three: Request::Required,
        ..NOTHING_ASKED
    };
    run.sets_up(
        b"1 preferred, 3 required",
        rights(7, false, 131),
        three,
        b"",
    );
    run.connects(b"connect, 1 silent, 3 rejected", rejects);
}

// The caller's own request is not its own to accept, and the called side's DISCONNECT rejects it, while it is open.
fn closes(run: &mut Run) {
    connected(run);
    run.asks(b"caller asks", Side::Calling, What::Preferred);
    run.asks(
        b"caller accepts its own request",
        Side::Calling,
        What::Accept,
    );
    let event = Event::Disconnect {
        side: Side::Called,
        cause: 16,
        answers: ByService::same(Given::Rejected),
    };
    run.step(b"called disconnect, all rejected", event, b"");
}

// The same numbers from a call and from a lent meter, which begins as service 3 does: with X credits.
fn metered(run: &mut Run) {
    alerted(run);
    run.connects(b"connect, accepted", ByService::same(Given::Accepted));
    let mut meter = Meter {
        credit: 1,
        mark: false,
        count: 0,
    };
    run.says_beside(b"by the count", &mut meter);
    run.says_beside(b"by the count, once more", &mut meter);
    run.says_beside(b"by the credit", &mut meter);
    run.says_beside(b"dropped", &mut meter);
    run.ticks_beside(b"tick", &mut meter);
}

fn main(rt: HostRuntime) {
    let mut run = Run::new();
    whole(&mut run);
    limits(&mut run);
    required(&mut run);
    facilities(&mut run);
    fails(&mut run);
    closes(&mut run);
    metered(&mut run);
    // Where the write failed, that was said.
    let _ = send(&rt, run.sheet.text());
}
