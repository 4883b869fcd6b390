// What an event makes of the table, decided by value: what is to be put there, and what is answered.
ghost use Rattle.std.specs.Prelude.{◌≡◌};
ghost use Rattle.table.specs.Plan.{plan_of};

use crate::settle::{Outcome, refusal, settles};
use crate::verdict::Verdict;
use call::Call;
use event::Event;

// What is put into the table: a record, and its place there.
#[derive(Clone, Copy)]
pub struct Seat {
    pub place: usize,
    pub call: Call,
}

#[derive(Clone, Copy)]
pub struct Plan {
    pub put: Option<Seat>,
    pub outcome: Outcome,
}

// Nothing is put anywhere yet: who holds the table may still leave it as it is.
pub fn plans(l: Result<Seat, Verdict>, event: Event, element: &[u8]) -> Plan
    ensures { result ≡ plan_of l event element.now }
{
    match l {
        Ok(seat) => {
            let settled = settles(seat.call, event, element);
            Plan {
                put: Some(Seat {
                    place: seat.place,
                    call: settled.call,
                }),
                outcome: settled.outcome,
            }
        }
        Err(verdict) => Plan {
            put: None,
            outcome: refusal(verdict),
        },
    }
}
