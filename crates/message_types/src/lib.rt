// The nine types of a message, the octet of each, and which single octet it may have.
#![tactic(auto)]

ghost use Rattle.std.specs.Prelude.{◌≡◌};
ghost use Rattle.message_types.specs.Kind.{kind_of, kind_octet, class_of};

// Each type has the octet that it is written by.
#[derive(Clone, Copy)]
pub enum Kind {
    Alerting = 0x01,
    CallProceeding = 0x02,
    Setup = 0x05,
    Connect = 0x07,
    UserInformation = 0x20,
    Disconnect = 0x45,
    ReleaseComplete = 0x5A,
    Facility = 0x62,
    CongestionControl = 0x79,
}

// Which single octet a message of a type may have: none, More data, or a congestion level.
#[derive(Clone, Copy)]
pub enum Class {
    Plain,
    Information,
    Congestion,
}

// The type that an octet names, if it is one of the nine. An Option and no TryFrom, since what another octet means is
// for the reader of the message to say.
#[tactic(auto, unfolding(crate::specs::Kind::kind_of))]
pub fn kind_in(x: u8) -> Option<Kind>
    ensures { result ≡ kind_of x }
{
    match x {
        0x01 => Some(Kind::Alerting),
        0x02 => Some(Kind::CallProceeding),
        0x05 => Some(Kind::Setup),
        0x07 => Some(Kind::Connect),
        0x20 => Some(Kind::UserInformation),
        0x45 => Some(Kind::Disconnect),
        0x5A => Some(Kind::ReleaseComplete),
        0x62 => Some(Kind::Facility),
        0x79 => Some(Kind::CongestionControl),
        _ => None,
    }
}

pub fn kind_octet(k: Kind) -> u8
    ensures { result ≡ kind_octet k }
{
    k as u8
}

pub fn class_of(k: Kind) -> Class
    ensures { result ≡ class_of k }
{
    match k {
        Kind::UserInformation => Class::Information,
        Kind::CongestionControl => Class::Congestion,
        _ => Class::Plain,
    }
}
