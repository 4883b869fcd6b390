// SETUP: the whole record filled, and the first two messages.
ghost use Rattle.std.specs.Prelude.{◌≡◌};
ghost use Rattle.call.specs.Setup.{proceeds_of, setup_of};

use crate::Call;
use crate::records::opened;
use crate::reply::Reply;
use answer::Answer;
use phases::is_fresh;
use rights::{Rights, reference_fits, rights_fit};
use services::{ByService, Request};
use setup_rules::opens;
use user_element::{Seen, look};

#[tactic(auto, unfolding(crate::specs::Setup::proceeds_of))]
fn proceeds(reference: u16, rights: Rights, requests: ByService<Request>, seen: Seen) -> Reply
    ensures { result ≡ proceeds_of reference rights requests seen }
{
    let opening = opens(rights, requests, seen);
    Reply {
        call: opened(reference, rights, opening.phase, opening.standings),
        answer: Answer::Taken,
        note: opening.note,
        dispatch: opening.dispatch,
    }
}

impl Call {
    #[tactic(auto, unfolding(crate::specs::Setup::setup_of))]
    pub fn setup(
        self,
        reference: u16,
        rights: Rights,
        requests: ByService<Request>,
        element: &[u8],
    ) -> Reply
        ensures { result ≡ setup_of self reference rights requests element.now }
    {
        let ranged = reference_fits(reference) && rights_fit(rights);
        let seen = look(element, rights.limit);
        let reply = proceeds(reference, rights, requests, seen);
        self.heard(is_fresh(self.phase), ranged, reply)
    }
}
