// The record of a call as it is opened.
ghost use Rattle.std.specs.Prelude.{◌≡◌};
ghost use Rattle.call.specs.Records.{opened_of};

use crate::Call;
use facility_rules::nobody_asks;
use flow_meter::call_meters::empty_meters;
use phases::Phase;
use rights::Rights;
use services::{ByService, Standing};

// Nobody has asked for anything yet, and the meters are empty.
pub(crate) fn opened(
    reference: u16,
    rights: Rights,
    phase: Phase,
    standings: ByService<Standing>,
) -> Call
    ensures { result ≡ opened_of reference rights phase standings }
{
    Call {
        reference,
        rights,
        phase,
        standings,
        asking: nobody_asks(),
        meters: empty_meters(),
    }
}
