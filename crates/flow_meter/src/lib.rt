// The flow meter of one direction: credit, mark and service 2 count, as service 3 comes into force and at a tick.
#![tactic(auto)]

ghost use Rattle.std.specs.Prelude.{◌≡◌};
ghost use Rattle.flow_meter.specs.Meter.{empty_of, meter_fits_of, granted_of, refilled_of, ticked_of};

pub mod call_meters;
pub mod lent;
pub mod passage;

// Messages that service 2 lets through in one direction.
pub(crate) const GREATEST_COUNT: u8 = 2;

#[derive(Clone, Copy)]
pub struct Meter {
    pub credit: u16,
    pub mark: bool,
    pub count: u8,
}

// A tick adds the refill, up to the burst.
#[tactic(auto, unfolding(crate::specs::Meter::refilled_of))]
fn refilled(credit: u16, burst: u16, refill: u16) -> u16
    ensures { result ≡ refilled_of credit burst refill }
{
    credit.saturating_add(refill).min(burst)
}

impl Meter {
    // The meter as a call begins.
    #[tactic(auto, unfolding(crate::specs::Meter::empty_of))]
    pub(crate) fn empty() -> Meter
        ensures { result ≡ empty_of }
    {
        Meter {
            credit: 0,
            mark: false,
            count: 0,
        }
    }

    // The meter as service 3 comes into force.
    #[tactic(auto, unfolding(crate::specs::Meter::granted_of))]
    pub(crate) fn granted(self, burst: u16) -> Meter
        ensures { result ≡ granted_of self burst }
    {
        Meter {
            credit: burst,
            ..self
        }
    }

    // The meter after a tick.
    #[tactic(auto, unfolding(crate::specs::Meter::ticked_of))]
    pub(crate) fn ticked(self, burst: u16, refill: u16) -> Meter
        ensures { result ≡ ticked_of self burst refill }
    {
        Meter {
            credit: refilled(self.credit, burst, refill),
            mark: false,
            ..self
        }
    }
}

// No method: its callers outside have it by this name, after its definition, `meter_fits_of`.
#[tactic(auto, unfolding(crate::specs::Meter::meter_fits_of))]
pub fn meter_fits(m: Meter, burst: u16) -> bool
    ensures { result ≡ meter_fits_of m burst }
{
    m.credit <= burst && m.count <= GREATEST_COUNT
}
