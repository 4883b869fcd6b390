// What a table answers, and the number of each answer.
ghost use Rattle.std.specs.Prelude.{◌≡◌};
ghost use Rattle.table.specs.Verdict.{verdict_number};

use answer::{Answer, number};

// Heard: an answer that a call gives too. The others only a table gives.
#[derive(Clone, Copy)]
pub enum Verdict {
    Heard(Answer),
    NoPlace,
    Held,
    NoCall,
}

pub fn verdict_number(v: Verdict) -> u8
    ensures { result ≡ verdict_number v }
{
    match v {
        Verdict::Heard(a) => number(a),
        Verdict::NoPlace => 21,
        Verdict::Held => 22,
        Verdict::NoCall => 23,
    }
}
