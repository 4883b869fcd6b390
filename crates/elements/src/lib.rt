// The elements of a message: one pass over its octets, and no octet of it is copied.
#![tactic(auto)]

ghost use Rattle.std.specs.Prelude.{Ok, ◌≡◌, ◌<◌, ◌≤◌, ◌+◌, length, get_or, drop};
ghost use Rattle.elements.specs.Elements.{between, elements, is_whole};
ghost use Rattle.elements.specs.Meaning.{taken_from};
ghost use Rattle.elements.specs.Scan.{Adds, locked, taken_with};

use crate::single::{first_single, single_in};
use crate::so_far::{Found, cause_seen, first_cause, first_place, with_facility};
use crate::walk::Walk;
use facility::forms::facility_in;
use message_fields::{Facilities, Fault, Header, Message, Reading, Single};

mod single;
pub mod so_far;
mod walk;

// What the element of m from i to e adds to what was found.
#[tactic(auto, using(crate::proofs::Noting::adds_facility))]
fn note(h: Header, f: Found, m: &[u8], i: usize, e: usize) -> Found
    requires { (i < e) × (e ≤ length m.now) × (get_or m.now i 0 < 128 → i + 2 ≤ e) }
    ensures { Adds h f (between m.now i e) result }
{
    match m[i] {
        0x08 => Found {
            cause: first_cause(f.cause, &m[i + 2..e]),
            ..f
        },
        0x1C => Found {
            facility: with_facility(f.facility, facility_in(&m[i + 2..e])),
            ..f
        },
        0x7E => Found {
            user: first_place(f.user, i, e - i),
            ..f
        },
        x => Found {
            single: first_single(f.single, single_in(h.kind, x)),
            ..f
        },
    }
}

// The fields that were found, with what the header says.
fn taken(h: Header, f: Found) -> Reading
    ensures { Ok result ≡ taken_with h f }
{
    Reading {
        message: Message {
            header: h,
            single: f.single,
            cause: cause_seen(f.cause),
            facility: f.facility,
        },
        user: f.user,
    }
}

// How the scan goes on: over the next element, or past it.
#[derive(Clone, Copy)]
enum Way {
    On,
    Past,
}

// Whether the octets from a place on have every part that they announce.
#[tactic(auto, using(crate::proofs::Turns::whole_then, crate::proofs::Splitting::none_left))]
fn ends_whole(m: &[u8], start: usize) -> bool
    ensures { result ≡ is_whole (elements start 0 (drop start m.now)) }
{
    for element in Walk::new(m, start) {
        if element.is_err() {
            return false;
        }
    }
    true
}

// What was found, if the octets from a place on have every part that they announce.
#[tactic(auto, using(crate::proofs::Turns::out_short, crate::proofs::Turns::out_whole))]
fn by_lengths(h: Header, f: Found, m: &[u8], start: usize) -> Result<Reading, Fault>
    ensures { result ≡ locked h f (elements start 0 (drop start m.now)) }
{
    if ends_whole(m, start) {
        Ok(taken(h, f))
    } else {
        Err(Fault::Short)
    }
}

// The elements from a place on. A locking shift ends the search; the lengths after it are still checked, in a loop of
// their own: what was found is not carried along any more.
#[tactic(auto, using(crate::proofs::Turns::at_first, crate::proofs::Turns::out_cut, crate::proofs::Turns::out_end, crate::proofs::Turns::past, crate::proofs::Turns::locks, crate::proofs::Turns::shifts, crate::proofs::Turns::notes))]
pub fn scan(m: &[u8], start: usize, h: Header) -> Result<Reading, Fault>
    ensures { result ≡ taken_from h (elements start 0 (drop start m.now)) }
{
    let mut way = Way::On;
    let mut f = Found {
        single: Single::Absent,
        cause: None,
        facility: Facilities::Zero,
        user: None,
    };
    for element in Walk::new(m, start) {
        let (i, e) = element?;
        if let Way::Past = way {
            way = Way::On;
        } else {
            match m[i] {
                0x90..=0x97 => return by_lengths(h, f, m, e),
                0x98..=0x9F => way = Way::Past,
                _ => f = note(h, f, m, i, e),
            }
        }
    }
    Ok(taken(h, f))
}
