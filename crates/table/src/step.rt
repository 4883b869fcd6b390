// An event at a lent table: which record it goes to, the two halves `look` and `commit`, and all in one `step`.
ghost use Rattle.std.specs.Prelude.{◌≡◌};
ghost use Rattle.table.specs.Halves.{look_of, committed};
ghost use Rattle.table.specs.Step.{step_outcome, step_table};

use crate::call_at;
use crate::choice::chosen;
use crate::plan::{Seat, plans};
use crate::settle::Outcome;
use crate::verdict::Verdict;
use call::Call;
use event::Event;

// What the table shows of an event.
#[tactic(auto, unfolding(crate::specs::Halves::look_of))]
pub fn look(t: &[Call], reference: u16, event: Event) -> Result<Seat, Verdict>
    ensures { result ≡ look_of t.now reference event }
{
    let place = chosen(t, reference, event)?;
    Ok(Seat {
        place,
        call: call_at(t, place),
    })
}

// Puts a record at its place, or leaves the table as it is.
#[tactic(auto, using(std::proofs::lemmas::List::set_past))]
pub fn commit(t: &mut [Call], p: Option<Seat>)
    ensures { t.new ≡ committed t.old p }
{
    if let Some(seat) = p
        && seat.place < t.len()
    {
        t[seat.place] = seat.call;
    }
}

// The number that the table gives, or what the call answers.
#[tactic(auto, using(crate::proofs::step::Planned::plan_told, crate::proofs::step::Planned::plan_put))]
pub fn step(t: &mut [Call], reference: u16, event: Event, element: &[u8]) -> Outcome
    ensures { (result ≡ step_outcome t.old reference event element.now) × (t.new ≡ step_table t.old reference event element.now) }
{
    let plan = plans(look(t, reference, event), event, element);
    commit(t, plan.put);
    plan.outcome
}
