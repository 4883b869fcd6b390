// A record of a trace, written into a buffer that the caller lends, or why it is not; numbers 6 and 7.
#![tactic(auto)]

ghost use Rattle.std.specs.Prelude.{◌≡◌, ◌∷◌, ◌++◌, ◌≤◌, ◌+◌, ◌/◌, ◌%◌, Some, length, drop, replicate};
ghost use Rattle.memory.specs.Room.{Written};
ghost use Rattle.trace.specs.Kind.{layout_of, size_of};
ghost use Rattle.recorder.specs.Writing.{field_octets, kind_for, set_in, three_in, rights_in, fields_in, head_as, has_element, tail_octets, fielded_of, record_octets, event_fits_of, record_fits_of};

use event::Event;
use memory::{Bar, write_octets};
use rights::Rights;
use services::ByService;
use trace::kind::{Layout, RecordKind, layout_of, size};
use trace::values::InOctet;
use user_element::writable::element_fits;

// The octets of the longest record.
const LONGEST: usize = 144;

// r, e and u, a reference, an event and the octets of its element, are handed on one by one, as the definition
// `record_octets` takes them. They stand together nowhere else.

// The kind of record that an event is written as.
fn kind_for(e: Event) -> Option<RecordKind>
    ensures { result ≡ kind_for e }
{
    match e {
        Event::Setup { .. } => Some(RecordKind::Setup),
        Event::Alerting { .. } => Some(RecordKind::Alerting),
        Event::Connect { .. } => Some(RecordKind::Connect),
        Event::Information { .. } => Some(RecordKind::Information),
        Event::Facility { .. } => Some(RecordKind::Facility),
        Event::Disconnect { .. } => Some(RecordKind::Disconnect),
        Event::ReleaseComplete { .. } => Some(RecordKind::ReleaseComplete),
        Event::Tick => Some(RecordKind::Tick),
        Event::CallProceeding | Event::CongestionControl => None,
    }
}

fn fielded(e: Event) -> bool
    ensures { result ≡ fielded_of e }
{
    kind_for(e).is_some_and(|k| layout_of(k).element.is_some())
}

fn event_fits(r: u16, e: Event) -> bool
    ensures { result ≡ event_fits_of r e }
{
    match e {
        Event::Setup {
            reference,
            rights,
            ..
        } => reference == r && rights.burst < 256 && rights.refill < 256,
        Event::Information { more, .. } => !more,
        Event::Disconnect { cause, .. } => cause < 128,
        Event::Alerting { .. }
        | Event::Connect { .. }
        | Event::Facility { .. }
        | Event::ReleaseComplete { .. }
        | Event::Tick => true,
        Event::CallProceeding | Event::CongestionControl => false,
    }
}

// Whether a trace can hold the event with its element.
#[tactic(auto, unfolding(crate::specs::Writing::record_fits_of))]
pub fn record_fits(r: u16, e: Event, u: &[u8]) -> bool
    ensures { result ≡ record_fits_of r e u.now }
{
    let tail_fits = if fielded(e) {
        element_fits(u)
    } else {
        u.is_empty()
    };
    event_fits(r, e) && tail_fits
}

// An octet put into a record, so many after the place of a field; none where the kind has no such field, or the record
// ends before it.
#[tactic(auto, using(std::proofs::lemmas::List::set_past))]
fn put(o: &mut [u8], place: Option<usize>, i: usize, x: u8)
    ensures { o.new ≡ set_in place i x o.old }
{
    if let Some(p) = place
        && p < o.len()
        && i < o.len() - p
    {
        o[p + i] = x;
    }
}

// What is said of each service, in three octets from a place on.
fn put_three<V: InOctet>(o: &mut [u8], p: Option<usize>, said: ByService<V>)
    ensures { o.new ≡ three_in p (V.octet said.one) (V.octet said.two) (V.octet said.three) o.old }
{
    put(o, p, 0, said.one.written());
    put(o, p, 1, said.two.written());
    put(o, p, 2, said.three.written());
}

fn put_rights(o: &mut [u8], p: Option<usize>, r: Rights)
    ensures { o.new ≡ rights_in p r o.old }
{
    let [_, burst] = r.burst.to_be_bytes();
    let [_, refill] = r.refill.to_be_bytes();
    put(o, p, 0, r.services);
    put(o, p, 1, r.late.written());
    put(o, p, 2, r.leave.written());
    put(o, p, 3, r.limit);
    put(o, p, 4, burst);
    put(o, p, 5, refill);
}

// The fields of an event, each at its place.
fn put_fields(o: &mut [u8], l: Layout, e: Event)
    ensures { o.new ≡ fields_in e l o.old }
{
    match e {
        Event::Setup {
            rights,
            requests,
            ..
        } => {
            put_rights(o, l.rights, rights);
            put_three(o, l.requests, requests);
        }
        Event::Alerting { answers } | Event::Connect { answers } => {
            put_three(o, l.answers, answers);
        }
        Event::Information { side, .. } | Event::ReleaseComplete { side } => {
            put(o, l.side, 0, side.written());
        }
        Event::Facility { side, what } => {
            put(o, l.side, 0, side.written());
            put(o, l.what, 0, what.written());
        }
        Event::Disconnect {
            side,
            cause,
            answers,
        } => {
            put(o, l.side, 0, side.written());
            put(o, l.cause, 0, cause);
            put_three(o, l.answers, answers);
        }
        Event::Tick | Event::CallProceeding | Event::CongestionControl => {}
    }
}

// A record up to its element field: the octet of kind, the reference and the fields, each put over what stood there.
fn put_head(head: &mut [u8], l: Layout, r: u16, e: Event)
    requires { 3 ≤ length head.old }
    ensures { head.new ≡ fields_in e l (l.octet ∷ r / 256 ∷ r % 256 ∷ drop 3 head.old) }
{
    let [high, low] = r.to_be_bytes();
    head[0] = l.octet;
    head[1] = high;
    head[2] = low;
    put_fields(head, l, e);
}

// An element field put into zeros: the number of octets, and the octets, for which there is room.
fn put_element(field: &mut [u8], u: &[u8])
    requires zeros { field.old ≡ replicate 132 0 }
    requires room { length u.now ≤ 131 }
    ensures { field.new ≡ field_octets u.now }
{
    field[0] = u.len() as u8;
    let _ = write_octets(field, 1, u);
}

// A record put into zeros, as many as its kind has octets, with its element field if its kind has one.
fn put_record(octets: &mut [u8], k: RecordKind, r: u16, e: Event, u: &[u8])
    requires zeros { octets.old ≡ replicate (size_of k) 0 }
    requires room { length u.now ≤ 131 }
    ensures { octets.new ≡ head_as k r e ++ tail_octets (has_element (Some k)) u.now }
{
    let l = layout_of(k);
    let (head, field) = octets.split_at_mut(l.element.unwrap_or(l.size));
    put_head(head, l, r, e);
    if l.element.is_some() {
        put_element(field, u);
    }
}

// Writes a record from a place on, or no octet at all. It is laid out apart, in one array that is lent to what puts
// each part there: given back by each, the array would be copied each time.
#[tactic(auto, using(crate::proofs::Sizing::longest))]
pub fn write_record(buf: &mut [u8], at: usize, r: u16, e: Event, u: &[u8]) -> Result<usize, Bar>
    ensures { Written (record_fits_of r e u.now) at (record_octets r e u.now) buf.old buf.new result }
{
    if !record_fits(r, e, u) {
        return Err(Bar::Range);
    }
    let k = kind_for(e).ok_or(Bar::Range)?;
    let mut octets = [0u8; LONGEST];
    let record = &mut octets[..size(k)];
    put_record(record, k, r, e, u);
    write_octets(buf, at, record)
}
