// What a message meets in a meter: the count first, then the credit.
ghost use Rattle.std.specs.Prelude.{◌≡◌};
ghost use Rattle.flow_meter.specs.Passage.{under_three_of, passage_of, after_of};

use crate::{GREATEST_COUNT, Meter};

// What becomes of a USER INFORMATION message: it passes under service 2 or under service 3, it is dropped and sets the
// mark, it is dropped, or no service serves it. Each of the first three holds the meter as it is to be afterwards.
// The last two leave it as it was, and hold none: so `passage_of` and `after_of` have it.
#[derive(Clone, Copy)]
pub enum Passage {
    Two(Meter),
    Three(Meter),
    Marks(Meter),
    Spent,
    Unserved,
}

impl Meter {
    // A message that service 3 pays for, or that is dropped for credit.
    #[tactic(auto, unfolding(crate::specs::Passage::marked_of, crate::specs::Passage::paid_of, crate::specs::Passage::under_three_of))]
    fn under_three(self) -> Passage
        ensures { result ≡ under_three_of self }
    {
        if self.credit > 0 {
            Passage::Three(Meter {
                credit: self.credit - 1,
                ..self
            })
        } else if self.mark {
            Passage::Spent
        } else {
            Passage::Marks(Meter { mark: true, ..self })
        }
    }

    // The meter after a message: a message that is only dropped changes nothing.
    pub(crate) fn after(self, p: Passage) -> Meter
        ensures { result ≡ after_of self p }
    {
        match p {
            Passage::Two(n) | Passage::Three(n) | Passage::Marks(n) => n,
            Passage::Spent | Passage::Unserved => self,
        }
    }
}

// The count of service 2 is tried first, and then the credit of service 3. No method: it has the name of its
// definition, which the rules of USER INFORMATION cite.
#[tactic(auto, unfolding(crate::specs::Passage::counted_of, crate::specs::Passage::passage_of))]
pub fn passage_of(m: Meter, two: bool, three: bool) -> Passage
    ensures { result ≡ passage_of m two three }
{
    if two && m.count < GREATEST_COUNT {
        Passage::Two(Meter {
            count: m.count + 1,
            ..m
        })
    } else if three {
        m.under_three()
    } else if two {
        Passage::Spent
    } else {
        Passage::Unserved
    }
}
