// A record of a trace, read: its event, and its element as a part of the trace; numbers 31 to 33.
#![tactic(auto)]

ghost use Rattle.std.specs.Prelude.{◌≡◌, Some};
ghost use Rattle.trace.specs.Reading.{record_reference_of, rights_of, named_of, three_said, event_of, count_of, entry_of, record_of, element_of};

use crate::kind::{Layout, RecordKind, layout_of, size};
use crate::ranges::first_out;
use crate::values::{InOctet, octet_at, octet_in, said_in};
use event::Event;
use memory::stretch::stretch;
use rights::{Rights, Service};
use services::ByService;

mod element_field;
pub mod kind;
pub mod ranges;
pub mod values;

// The fields that have a range. Element: how many octets, and the two that an element begins with; Zeros: what follows
// an element in its field.
#[derive(Clone, Copy)]
pub enum Field {
    Late,
    Leave,
    Side,
    What,
    Cause,
    Request(Service),
    Answer(Service),
    Element,
    Zeros,
}

// Why a trace goes on no further: an unknown kind, a record that is cut short, the first field that is out of range.
#[derive(Clone, Copy)]
pub enum Fault {
    Kind,
    Short,
    Range(Field),
}

// A record that is whole and in range: its event, without the element. at: where the element's octets begin in the
// record; count: how many there are, 0 for absent: who keeps an entry knows both when the record is gone.
#[derive(Clone, Copy)]
pub struct Entry {
    pub kind: RecordKind,
    pub reference: u16,
    pub event: Event,
    pub at: usize,
    pub count: usize,
}

#[tactic(auto, unfolding(crate::specs::Reading::record_reference_of))]
fn reference(t: &[u8]) -> u16
    ensures { result ≡ record_reference_of t.now }
{
    u16::from_be_bytes([octet_at(t, 1, 0), octet_at(t, 2, 0)])
}

// Six octets from a place on.
#[tactic(auto, unfolding(crate::specs::Reading::rights_of))]
fn rights(t: &[u8], p: Option<usize>) -> Rights
    ensures { result ≡ rights_of p t.now }
{
    Rights {
        services: octet_in(t, p, 0),
        late: said_in(t, p, 1),
        leave: said_in(t, p, 2),
        limit: octet_in(t, p, 3),
        burst: u16::from(octet_in(t, p, 4)),
        refill: u16::from(octet_in(t, p, 5)),
    }
}

// Three octets from a place on, one for each service.
fn three<V: InOctet>(t: &[u8], p: Option<usize>) -> ByService<V>
    ensures { result ≡ three_said V.said p t.now }
{
    ByService {
        one: said_in(t, p, 0),
        two: said_in(t, p, 1),
        three: said_in(t, p, 2),
    }
}

// The event of a record, its fields where the layout has them.
#[tactic(auto, unfolding(crate::specs::Reading::requests_of, crate::specs::Reading::answers_of))]
fn event(k: RecordKind, l: Layout, t: &[u8]) -> Event
    ensures { result ≡ event_of k l t.now }
{
    match k {
        RecordKind::Setup => Event::Setup {
            reference: reference(t),
            rights: rights(t, l.rights),
            requests: three(t, l.requests),
        },
        RecordKind::Alerting => Event::Alerting {
            answers: three(t, l.answers),
        },
        RecordKind::Connect => Event::Connect {
            answers: three(t, l.answers),
        },
        RecordKind::Information => Event::Information {
            side: said_in(t, l.side, 0),
            more: false,
        },
        RecordKind::Facility => Event::Facility {
            side: said_in(t, l.side, 0),
            what: said_in(t, l.what, 0),
        },
        RecordKind::Disconnect => Event::Disconnect {
            side: said_in(t, l.side, 0),
            cause: octet_in(t, l.cause, 0),
            answers: three(t, l.answers),
        },
        RecordKind::ReleaseComplete => Event::ReleaseComplete {
            side: said_in(t, l.side, 0),
        },
        RecordKind::Tick => Event::Tick,
    }
}

// How many octets the element has whose field stands at a place.
fn count(t: &[u8], place: Option<usize>) -> usize
    ensures { result ≡ count_of place t.now }
{
    match place {
        Some(p) => usize::from(octet_at(t, p, 0)),
        None => 0,
    }
}

#[tactic(auto, unfolding(crate::specs::Reading::entry_of))]
fn taken(kind: RecordKind, t: &[u8]) -> Entry
    ensures { result ≡ entry_of kind t.now }
{
    let l = layout_of(kind);
    Entry {
        kind,
        reference: reference(t),
        event: event(kind, l, t),
        at: l.element.unwrap_or(0) + 1,
        count: count(t, l.element),
    }
}

fn read_kind(k: RecordKind, t: &[u8]) -> Result<Entry, Fault>
    ensures { Some result ≡ named_of (Some k) t.now }
{
    if t.len() < size(k) {
        return Err(Fault::Short);
    }
    match first_out(layout_of(k), t) {
        None => Ok(taken(k, t)),
        Some(f) => Err(Fault::Range(f)),
    }
}

// The record at the front of a trace.
#[tactic(auto, unfolding(crate::specs::Reading::record_of))]
pub fn read_record(t: &[u8]) -> Option<Result<Entry, Fault>>
    ensures { result ≡ record_of t.now }
{
    let octet = *t.first()?;
    Some(RecordKind::try_from(octet).and_then(|k| read_kind(k, t)))
}

// The element of a record, as the very part of the trace; empty where there is none.
#[tactic(auto, unfolding(crate::specs::Reading::element_of))]
pub fn element(t: &[u8], e: Entry) -> &[u8]
    ensures { result.now ≡ element_of e t.now }
{
    stretch(t, e.at, e.count)
}
