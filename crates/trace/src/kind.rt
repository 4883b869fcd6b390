// The kinds of record, and the layout of each: where its fields stand, and how long it is.
ghost use Rattle.std.specs.Prelude.{◌≡◌};
ghost use Rattle.trace.specs.Kind.{KindGives, layout_of, size_of};

use crate::Fault;

// Each kind has the octet that its records begin with.
#[derive(Clone, Copy)]
pub enum RecordKind {
    Setup = 1,
    Alerting = 2,
    Connect = 3,
    Information = 4,
    Facility = 5,
    Disconnect = 6,
    ReleaseComplete = 7,
    Tick = 8,
}

// The octets that an element field has.
pub const FIELD: usize = 132;

// octet: what the octet of kind is. Then where each field stands, the octet of kind counted as 0; none for a kind
// without the field. rights: services, and behind it late, leave, limit, X and Y; requests and answers: three octets
// each; element: the element field. size: how many octets the record has, its octet of kind included.
#[derive(Clone, Copy)]
pub struct Layout {
    pub octet: u8,
    pub rights: Option<usize>,
    pub side: Option<usize>,
    pub what: Option<usize>,
    pub cause: Option<usize>,
    pub requests: Option<usize>,
    pub answers: Option<usize>,
    pub element: Option<usize>,
    pub size: usize,
}

impl TryFrom<u8> for RecordKind {
    type Error = Fault;

    ghost try_from_gives = { KindGives };

    #[tactic(auto, unfolding(crate::specs::Kind::record_kind_of))]
    fn try_from(octet: u8) -> Result<RecordKind, Fault> {
        match octet {
            1 => Ok(RecordKind::Setup),
            2 => Ok(RecordKind::Alerting),
            3 => Ok(RecordKind::Connect),
            4 => Ok(RecordKind::Information),
            5 => Ok(RecordKind::Facility),
            6 => Ok(RecordKind::Disconnect),
            7 => Ok(RecordKind::ReleaseComplete),
            8 => Ok(RecordKind::Tick),
            _ => Err(Fault::Kind),
        }
    }
}

// A record with none of the fields. The octet of kind and the size are of no kind: each row gives its own over them.
const BARE: Layout = Layout {
    octet: 0,
    rights: None,
    side: None,
    what: None,
    cause: None,
    requests: None,
    answers: None,
    element: None,
    size: 0,
};

// The layout of a kind: one row for each.
pub fn layout_of(k: RecordKind) -> Layout
    ensures { result ≡ layout_of k }
{
    match k {
        RecordKind::Setup => Layout {
            octet: k as u8,
            rights: Some(3),
            requests: Some(9),
            element: Some(12),
            size: 144,
            ..BARE
        },
        RecordKind::Alerting => Layout {
            octet: k as u8,
            answers: Some(3),
            element: Some(6),
            size: 138,
            ..BARE
        },
        RecordKind::Connect => Layout {
            octet: k as u8,
            answers: Some(3),
            element: Some(6),
            size: 138,
            ..BARE
        },
        RecordKind::Information => Layout {
            octet: k as u8,
            side: Some(3),
            element: Some(4),
            size: 136,
            ..BARE
        },
        RecordKind::Facility => Layout {
            octet: k as u8,
            side: Some(3),
            what: Some(4),
            size: 5,
            ..BARE
        },
        RecordKind::Disconnect => Layout {
            octet: k as u8,
            side: Some(3),
            cause: Some(4),
            answers: Some(5),
            element: Some(8),
            size: 140,
            ..BARE
        },
        RecordKind::ReleaseComplete => Layout {
            octet: k as u8,
            side: Some(3),
            size: 4,
            ..BARE
        },
        RecordKind::Tick => Layout {
            octet: k as u8,
            size: 3,
            ..BARE
        },
    }
}

// How many octets a record has, its octet of kind included.
pub fn size(k: RecordKind) -> usize
    ensures { result ≡ size_of k }
{
    layout_of(k).size
}
