// The element field of a record: how many octets, the octets, and the zeros after them.
ghost use Rattle.std.specs.Prelude.{◌≡◌, drop};
ghost use Rattle.trace.specs.ElementField.{blank_of, form_fits_of, zeros_fit_of};

use crate::kind::FIELD;
use crate::values::octet_at;
use memory::stretch::stretch;

// Whether every octet from a place on is zero.
fn blank(s: &[u8], from: usize) -> bool
    ensures { result ≡ blank_of (drop from s.now) }
{
    s.iter().skip(from).all(|x| *x == 0)
}

// Whether the element field at a place is n octets, beginning 126 and n - 2, or says that there are none.
#[tactic(auto, unfolding(crate::specs::ElementField::form_fits_of))]
pub(crate) fn form_fits(t: &[u8], p: usize) -> bool
    ensures { result ≡ form_fits_of p t.now }
{
    let n = octet_at(t, p, 0);
    if n < 2 {
        n == 0
    } else {
        n <= 131 && octet_at(t, p, 1) == 126 && octet_at(t, p, 2) == n - 2
    }
}

// Whether zeros follow the octets of the element field at a place.
#[tactic(auto, unfolding(crate::specs::ElementField::zeros_fit_of))]
pub(crate) fn zeros_fit(t: &[u8], p: usize) -> bool
    ensures { result ≡ zeros_fit_of p t.now }
{
    blank(stretch(t, p, FIELD), usize::from(octet_at(t, p, 0)) + 1)
}
