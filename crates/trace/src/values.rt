// The small numbers of a record: the octet at a place, and what an octet of a field says.
ghost use Rattle.std.specs.Prelude.{◌≡◌, ℕ, get_or, ◌+◌};
ghost use Rattle.trace.specs.Values.{octet_in, flag_of, side_of, request_of, given_of, what_of, flag_octet, side_octet, request_octet, given_octet, what_octet, flag_back, side_back, request_back, given_back, what_back};

use facility_rules::What;
use sent::side::Side;
use services::{Given, Request};

// A value that stands in one octet of a record: what an octet says, and the octet that says it. The octets of the
// enums below stand here and not at their cases: the rooms that declare them know of no trace.
pub trait InOctet {
    ghost said: { ℕ → Self };

    ghost octet: { Self → ℕ };

    fn read(x: u8) -> Self
        ensures { result ≡ said x };

    fn written(self) -> u8
        ensures { result ≡ octet self };

    // What is written reads back.
    ghost back: { (v : Self) → said (octet v) ≡ v };
}

impl InOctet for bool {
    ghost said = { flag_of };

    ghost octet = { flag_octet };

    ghost back = { flag_back };

    #[tactic(auto, unfolding(crate::specs::Values::flag_of))]
    fn read(x: u8) -> bool {
        x != 0
    }

    fn written(self) -> u8 {
        u8::from(self)
    }
}

impl InOctet for Side {
    ghost said = { side_of };

    ghost octet = { side_octet };

    ghost back = { side_back };

    #[tactic(auto, unfolding(crate::specs::Values::side_of))]
    fn read(x: u8) -> Side {
        match x {
            0 => Side::Calling,
            _ => Side::Called,
        }
    }

    fn written(self) -> u8 {
        match self {
            Side::Calling => 0,
            Side::Called => 1,
        }
    }
}

impl InOctet for Request {
    ghost said = { request_of };

    ghost octet = { request_octet };

    ghost back = { request_back };

    #[tactic(auto, unfolding(crate::specs::Values::request_of))]
    fn read(x: u8) -> Request {
        match x {
            0 => Request::Unasked,
            1 => Request::Preferred,
            _ => Request::Required,
        }
    }

    fn written(self) -> u8 {
        match self {
            Request::Unasked => 0,
            Request::Preferred => 1,
            Request::Required => 2,
        }
    }
}

impl InOctet for Given {
    ghost said = { given_of };

    ghost octet = { given_octet };

    ghost back = { given_back };

    #[tactic(auto, unfolding(crate::specs::Values::given_of))]
    fn read(x: u8) -> Given {
        match x {
            0 => Given::Silent,
            1 => Given::Accepted,
            _ => Given::Rejected,
        }
    }

    fn written(self) -> u8 {
        match self {
            Given::Silent => 0,
            Given::Accepted => 1,
            Given::Rejected => 2,
        }
    }
}

impl InOctet for What {
    ghost said = { what_of };

    ghost octet = { what_octet };

    ghost back = { what_back };

    #[tactic(auto, unfolding(crate::specs::Values::what_of))]
    fn read(x: u8) -> What {
        match x {
            0 => What::Preferred,
            1 => What::Accept,
            2 => What::Reject,
            _ => What::Required,
        }
    }

    fn written(self) -> u8 {
        match self {
            What::Preferred => 0,
            What::Accept => 1,
            What::Reject => 2,
            What::Required => 3,
        }
    }
}

// The octet that stands so many after a place; 0 where there is none, as the definitions read (`get_or`). Only a record
// that is all there is read, and in it each octet that its layout names.
pub(crate) fn octet_at(t: &[u8], p: usize, i: usize) -> u8
    ensures { result ≡ get_or t.now (p + i) 0 }
{
    p.checked_add(i)
        .and_then(|at| t.get(at).copied())
        .unwrap_or(0)
}

// The octet that stands so many after the place of a field; 0 where a kind has no such field, as the definition
// `octet_in` says. `event` reads of a kind only the fields that it has.
pub(crate) fn octet_in(t: &[u8], place: Option<usize>, i: usize) -> u8
    ensures { result ≡ octet_in place i t.now }
{
    match place {
        Some(p) => octet_at(t, p, i),
        None => 0,
    }
}

// What that octet says.
pub(crate) fn said_in<V: InOctet>(t: &[u8], place: Option<usize>, i: usize) -> V
    ensures { result ≡ V.said (octet_in place i t.now) }
{
    V::read(octet_in(t, place, i))
}
