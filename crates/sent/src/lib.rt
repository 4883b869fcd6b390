// A message to one user, as a reply names it: its type, its cause, what it says of services, and whether the element
// goes out.
#![tactic(auto)]

ghost use Rattle.std.specs.Prelude.{◌≡◌, Some, false};
ghost use Rattle.sent.specs.Message.{silence, saying_of, bare_of, congestion_of, informs_of, only_if_of};

use cause::DISCARDED;
use message_types::Kind;
use services::{ByService, Said};

pub mod dispatch;
pub mod side;

// Nothing is said of any service.
#[tactic(auto, unfolding(crate::specs::Message::silence))]
fn silence() -> ByService<Said>
    ensures { result ≡ silence }
{
    ByService::same(Said::Nothing)
}

// Three values, and no Option of two: each promise on a message names one of the three.
#[derive(Clone, Copy)]
pub enum Level {
    Absent,
    Ready,
    NotReady,
}

// element: whether the event's element goes out in it.
#[derive(Clone, Copy)]
pub struct Message {
    pub kind: Kind,
    pub cause: Option<u8>,
    pub level: Level,
    pub said: ByService<Said>,
    pub more: bool,
    pub element: bool,
}

// A message with its type and nothing else.
fn plain(kind: Kind) -> Message
    ensures { result ≡ record { kind = kind; cause = None; level = Level.Absent; said = silence; more = false; element = false } }
{
    Message {
        kind,
        cause: None,
        level: Level::Absent,
        said: silence(),
        more: false,
        element: false,
    }
}

// The definitions are of what a user is sent: so the contract of each message here names it with its `Some`.
#[tactic(auto, unfolding(crate::specs::Message::saying_of))]
pub fn saying(kind: Kind, cause: Option<u8>, said: ByService<Said>, element: bool) -> Message
    ensures { Some result ≡ saying_of kind cause said element }
{
    Message {
        cause,
        said,
        element,
        ..plain(kind)
    }
}

// A message that says nothing of any service and holds no element.
#[tactic(auto, unfolding(crate::specs::Message::bare_of))]
pub fn bare(kind: Kind, cause: Option<u8>) -> Message
    ensures { Some result ≡ bare_of kind cause }
{
    saying(kind, cause, silence(), false)
}

// CONGESTION CONTROL, ready or not ready: both with the same cause.
#[tactic(auto, unfolding(crate::specs::Message::congestion_of))]
pub fn congestion(level: Level) -> Message
    ensures { Some result ≡ congestion_of level }
{
    Message {
        cause: Some(DISCARDED),
        level,
        ..plain(Kind::CongestionControl)
    }
}

// USER INFORMATION with the event's element.
#[tactic(auto, unfolding(crate::specs::Message::informs_of))]
pub fn informs(more: bool) -> Message
    ensures { Some result ≡ informs_of more }
{
    Message {
        more,
        element: true,
        ..plain(Kind::UserInformation)
    }
}

// By `only_if_of` the rules say when a message goes out, of any `Option<Message>`: so it is a function of its own.
#[tactic(auto, unfolding(crate::specs::Message::only_if_of))]
pub fn only_if(b: bool, s: Option<Message>) -> Option<Message>
    ensures { result ≡ only_if_of b s }
{
    s.filter(|_| b)
}
