// The user-user element as it can be written, into a message or a trace.
ghost use Rattle.std.specs.Prelude.{◌≡◌};
ghost use Rattle.user_element.specs.Writable.{element_fits_of};

use crate::framed;

// Absent, or an element that the paper lets go out.
#[tactic(auto, unfolding(crate::specs::Writable::element_fits_of))]
pub fn element_fits(u: &[u8]) -> bool
    ensures { result ≡ element_fits_of u.now }
{
    u.is_empty() || u.len() <= 131 && framed(u)
}
