// A buffer that the caller lends, and where the next piece goes into it.
ghost use Rattle.std.specs.Prelude.{◌≡◌, true, ◌≤◌, ◌+◌, length, option_to_list};
ghost use Rattle.facility.specs.Facility.{component_fits};
ghost use Rattle.facility.specs.Filling.{facility_octets};
ghost use Rattle.writer.specs.Fitting.{causes_fit, facilities_fit, message_fits};
ghost use Rattle.writer.specs.Pen.{Adds};
ghost use Rattle.writer.specs.Writing.{top_of, header_octets, single_octets, causes_octets, facilities_octets, message_octets};

use cause::element::write_cause;
use facility::Component;
use facility::filling::write_facility;
use memory::{end_of, write_octets};
use message_fields::{Facilities, Header, Message, Single, Width};
use message_types::kind_octet;

fn top(flag: bool, r: u16) -> u8
    ensures { result ≡ top_of flag r }
{
    let low = (r % 128) as u8;
    if flag { low + 128 } else { low }
}

fn single_octet(s: Single) -> Option<u8>
    ensures { option_to_list result ≡ single_octets s }
{
    match s {
        Single::Absent => None,
        Single::MoreData => Some(0xA0),
        Single::Ready => Some(0xB0),
        Single::NotReady => Some(0xBF),
    }
}

// Each piece is put where there is room for it.
#[derive(Drop)]
pub(crate) struct Pen<'a> {
    buf: &'a mut [u8],
    at: usize,
}

impl<'a> Pen<'a> {
    pub(crate) fn new(buf: &'a mut [u8]) -> Self
        ensures { (result.buf.ghost_name ≡ buf.entry.ghost_name) × (result.buf.now ≡ buf.old) × (result.at ≡ 0) }
    {
        Pen { buf, at: 0 }
    }

    // Where the last piece ended.
    pub(crate) fn end(&self) -> usize
        ensures { result ≡ self.now.at }
    {
        self.at
    }

    fn octets(&mut self, octets: &[u8])
        requires { self.old.at + length octets.now ≤ length self.old.buf.now }
        ensures { Adds octets.now self.old self.new }
    {
        let buf = &mut *self.buf;
        self.at = end_of(write_octets(buf, self.at, octets));
    }

    // Each method asks for room for what it adds, which is another number for each, and that this is in range where the
    // writer of the element refuses it otherwise.
    fn header(&mut self, h: Header)
        requires { self.old.at + length (header_octets h) ≤ length self.old.buf.now }
        ensures { Adds (header_octets h) self.old self.new }
    {
        let kind = kind_octet(h.kind);
        match h.width {
            Width::One => self.octets(&[8, 1, top(h.flag, h.reference), kind]),
            Width::Two => {
                let [high, low] = h.reference.to_be_bytes();
                self.octets(&[8, 2, top(h.flag, u16::from(high)), low, kind])
            }
        }
    }

    fn single(&mut self, s: Single)
        requires { self.old.at + length (single_octets s) ≤ length self.old.buf.now }
        ensures { Adds (single_octets s) self.old self.new }
    {
        if let Some(octet) = single_octet(s) {
            self.octets(&[octet]);
        }
    }

    fn cause(&mut self, c: Option<u8>)
        requires { (causes_fit c ≡ true) × (self.old.at + length (causes_octets c) ≤ length self.old.buf.now) }
        ensures { Adds (causes_octets c) self.old self.new }
    {
        if let Some(v) = c {
            let buf = &mut *self.buf;
            self.at = end_of(write_cause(buf, self.at, v));
        }
    }

    fn component(&mut self, c: Component)
        requires { (component_fits c ≡ true) × (self.old.at + length (facility_octets c) ≤ length self.old.buf.now) }
        ensures { Adds (facility_octets c) self.old self.new }
    {
        let buf = &mut *self.buf;
        self.at = end_of(write_facility(buf, self.at, c));
    }

    #[tactic(auto, using(crate::proofs::Pens::adds_two))]
    fn facilities(&mut self, f: Facilities)
        requires { (facilities_fit f ≡ true) × (self.old.at + length (facilities_octets f) ≤ length self.old.buf.now) }
        ensures { Adds (facilities_octets f) self.old self.new }
    {
        match f {
            Facilities::Zero => {}
            Facilities::One(a) => self.component(a),
            Facilities::Two(a, b) => {
                self.component(a);
                self.component(b);
            }
            Facilities::Three(a, b, c) => {
                self.component(a);
                self.component(b);
                self.component(c);
            }
        }
    }

    // A message that fits: the single octet first, then Cause, Facility, User-user.
    #[tactic(auto, using(crate::proofs::fitting::Ranges::fits, crate::proofs::sizes::Sizes::size_is), unfolding(crate::specs::Writing::front_octets, crate::specs::Writing::message_octets))]
    pub(crate) fn message(&mut self, w: Message, user: &[u8])
        requires { (message_fits w user.now ≡ true) × (self.old.at + length (message_octets w user.now) ≤ length self.old.buf.now) }
        ensures { Adds (message_octets w user.now) self.old self.new }
    {
        self.header(w.header);
        self.single(w.single);
        self.cause(w.cause);
        self.facilities(w.facility);
        self.octets(user);
    }
}
