// The flow meter of one direction, lent by its holder and changed there, and the number of what became of it.
ghost use Rattle.std.specs.Prelude.{◌≡◌};
ghost use Rattle.flow_meter.specs.Lent.{spent_by, lent_fits_of, spends_of, ticks_of, spent_number, ticked_number};

use crate::passage::{Passage, passage_of};
use crate::{Meter, meter_fits};
use rights::{GREATEST_BURST, GREATEST_REFILL};

// The meter that a message or a tick leaves, and what it answers.
#[derive(Clone, Copy)]
pub struct Left<T> {
    pub next: Meter,
    pub answer: T,
}

fn spent_by(p: Passage) -> Spent
    ensures { result ≡ spent_by p }
{
    match p {
        Passage::Two(_) => Spent::Two,
        Passage::Three(_) => Spent::Three,
        Passage::Marks(_) => Spent::Marked,
        Passage::Spent => Spent::Dropped,
        Passage::Unserved => Spent::Unserved,
    }
}

// The burst that the meter is held to is held to its own range first.
#[tactic(auto, unfolding(crate::specs::Lent::lent_fits_of))]
fn lent_fits(m: Meter, burst: u16) -> bool
    ensures { result ≡ lent_fits_of m burst }
{
    (1..=GREATEST_BURST).contains(&burst) && meter_fits(m, burst)
}

#[tactic(auto, unfolding(crate::specs::Lent::spends_of))]
fn spends(m: Meter, burst: u16, two: bool, three: bool) -> Left<Spent>
    ensures { result ≡ spends_of m burst two three }
{
    if !lent_fits(m, burst) {
        return Left {
            next: m,
            answer: Spent::Unsound,
        };
    }
    let passage = passage_of(m, two, three);
    Left {
        next: m.after(passage),
        answer: spent_by(passage),
    }
}

#[tactic(auto, unfolding(crate::specs::Lent::refill_fits_of, crate::specs::Lent::ticks_of))]
fn ticks(m: Meter, burst: u16, refill: u16) -> Left<Ticked>
    ensures { result ≡ ticks_of m burst refill }
{
    if !lent_fits(m, burst) || !(1..=GREATEST_REFILL).contains(&refill) {
        return Left {
            next: m,
            answer: Ticked::Unsound,
        };
    }
    Left {
        next: m.ticked(burst, refill),
        answer: if m.mark { Ticked::Ready } else { Ticked::Quiet },
    }
}

// A message in this direction. two, three: which services serve it. This and `tick` are no methods: a host calls them
// by these names.
pub fn spend(m: &mut Meter, burst: u16, two: bool, three: bool) -> Spent
    ensures { (m.new ≡ (spends_of m.old burst two three).next) × (result ≡ (spends_of m.old burst two three).answer) }
{
    let left = spends(*m, burst, two, three);
    *m = left.next;
    left.answer
}

// A tick while service 3 is in force in Active.
pub fn tick(m: &mut Meter, burst: u16, refill: u16) -> Ticked
    ensures { (m.new ≡ (ticks_of m.old burst refill).next) × (result ≡ (ticks_of m.old burst refill).answer) }
{
    let left = ticks(*m, burst, refill);
    *m = left.next;
    left.answer
}

// What became of a message: it passed under service 2 or under service 3, it was dropped and set the mark, it was
// dropped, or no service serves it. Unsound: the meter was not looked at further. It is one answer of the six, and no
// Err: `spends_of` and `spent_number` have it so.
#[derive(Clone, Copy)]
pub enum Spent {
    Two,
    Three,
    Marked,
    Dropped,
    Unserved,
    Unsound,
}

// Whether a tick cleared the mark, so that ready is to be sent. Unsound is one answer of the three, and no Err:
// `ticks_of` and `ticked_number` have it so.
#[derive(Clone, Copy)]
pub enum Ticked {
    Ready,
    Quiet,
    Unsound,
}

// Several cases share a number, here and below, so that it can't stand at the case itself.
pub fn spent_number(s: Spent) -> u8
    ensures { result ≡ spent_number s }
{
    match s {
        Spent::Two | Spent::Three => 0,
        Spent::Marked | Spent::Dropped => 14,
        Spent::Unserved => 13,
        Spent::Unsound => 25,
    }
}

pub fn ticked_number(t: Ticked) -> u8
    ensures { result ≡ ticked_number t }
{
    match t {
        Ticked::Ready | Ticked::Quiet => 0,
        Ticked::Unsound => 25,
    }
}
