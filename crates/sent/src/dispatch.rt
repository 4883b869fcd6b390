// What an event sends: at most one message to each user, and the service that carries the event's element.
ghost use Rattle.std.specs.Prelude.{◌≡◌};
ghost use Rattle.sent.specs.Dispatch.{by_one_of, to_users_of, nothing_sent};

use crate::Message;
use rights::Service;

// calling and called: what goes to the calling and to the called user. They are no `BySide` of their own: `to_users_of`
// and the promises' `sent_to` name them in the Dispatch.
#[derive(Clone, Copy)]
pub struct Dispatch {
    pub calling: Option<Message>,
    pub called: Option<Message>,
    pub carrier: Option<Service>,
}

// Service 1 carries what goes out in SETUP, ALERTING, CONNECT or DISCONNECT.
#[tactic(auto, unfolding(crate::specs::Dispatch::by_one_of))]
pub fn by_one(goes: bool) -> Option<Service>
    ensures { result ≡ by_one_of goes }
{
    goes.then_some(Service::One)
}

pub fn to_users(
    calling: Option<Message>,
    called: Option<Message>,
    carrier: Option<Service>,
) -> Dispatch
    ensures { result ≡ to_users_of calling called carrier }
{
    Dispatch {
        calling,
        called,
        carrier,
    }
}

pub fn nothing_sent() -> Dispatch
    ensures { result ≡ nothing_sent }
{
    to_users(None, None, None)
}
