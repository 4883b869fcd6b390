// What a piece of trace begins with.
ghost use Rattle.std.specs.Prelude.{◌≡◌};
ghost use Rattle.trace_run.specs.Front.{front_of};

use trace::{Entry, Fault, read_record};

// A record that is cut short is a fault only where nothing more comes.
#[tactic(auto, unfolding(crate::specs::Front::front_of))]
pub(crate) fn front_of(last: bool, t: &[u8]) -> Option<Result<Entry, Fault>>
    ensures { result ≡ front_of last t.now }
{
    match read_record(t) {
        Some(Err(Fault::Short)) if !last => None,
        front => front,
    }
}
