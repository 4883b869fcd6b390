// Whole messages with such components in them, both ways, and the reader's and writer's edges.
mod show;

use crate::annex_case::Sheet;
use crate::annex_messages::show::{both_all, read_all, reads, writes_message, writes_nowhere};
use facility::Component;
use memory::Bar;
use message_fields::{Facilities, Header, Message, Single, Width};
use message_types::Kind;

// Requests in SETUP.
fn calls(sheet: &mut Sheet) {
    both_all(
        sheet,
        &[
            (
                b"SETUP asks for 1",
                b"\x08\x01\x05\x05\x1C\x11\x91\xA1\x0E\x02\x01\x01\x02\x01\x01\x30\x06\x81\x01\x01\x82\x01\xFF\x7E\x03\x04\x48\x69",
                b"0 05 0 5 - - 1.1.p 23+5",
            ),
            (
                b"SETUP asks for 2 and 3",
                b"\x08\x02\x12\x34\x05\x1C\x11\x91\xA1\x0E\x02\x01\x01\x02\x01\x01\x30\x06\x81\x01\x02\x82\x01\x00\x1C\x11\x91\xA1\x0E\x02\x01\x02\x02\x01\x01\x30\x06\x81\x01\x03\x82\x01\xFF",
                b"0 05 0 4660 - - 1.2.r,2.3.p -",
            ),
        ],
    );
}

// The answers on the way back, and what they make possible.
fn answers(sheet: &mut Sheet) {
    both_all(
        sheet,
        &[
            (
                b"ALERTING accepts",
                b"\x08\x01\x85\x01\x1C\x06\x91\xA2\x03\x02\x01\x01",
                b"0 01 1 5 - - 1.ok -",
            ),
            (
                b"CONNECT rejects",
                b"\x08\x01\x85\x07\x1C\x09\x91\xA3\x06\x02\x01\x01\x02\x01\x02",
                b"0 07 1 5 - - 1.user -",
            ),
            (
                b"CALL PROCEEDING rejects",
                b"\x08\x01\x85\x02\x1C\x09\x91\xA3\x06\x02\x01\x01\x02\x01\x01",
                b"0 02 1 5 - - 1.network -",
            ),
            (
                b"USER INFORMATION",
                b"\x08\x01\x05\x20\xA0\x7E\x02\x04\x21",
                b"0 20 0 5 - A0 - 5+4",
            ),
            (
                b"CONGESTION CONTROL",
                b"\x08\x01\x05\x79\xBF\x08\x02\x82\xAB",
                b"0 79 0 5 43 BF - -",
            ),
            (
                b"DISCONNECT",
                b"\x08\x01\x05\x45\x08\x02\x82\x90\x7E\x01\x04",
                b"0 45 0 5 16 - - 8+3",
            ),
        ],
    );
}

// Numbers 1 to 5.
fn faults(sheet: &mut Sheet) {
    read_all(
        sheet,
        &[
            (b"empty message", b"", b"1 - - - - - - -"),
            (b"message cut short", b"\x08\x01\x05", b"1 - - - - - - -"),
            (
                b"element cut short",
                b"\x08\x01\x05\x05\x7E\x03\x04\x48",
                b"1 - - - - - - -",
            ),
            (
                b"cut short after a shift",
                b"\x08\x01\x05\x05\x96\x7E\x03\x04\x48",
                b"1 - - - - - - -",
            ),
            (b"first octet 9", b"\x09\x01\x05\x05", b"3 - - - - - - -"),
            (
                b"reference of 0 octets",
                b"\x08\x00\x05",
                b"4 - - - - - - -",
            ),
            (
                b"reference of 3 octets",
                b"\x08\x03\x00\x00\x05\x05",
                b"4 - - - - - - -",
            ),
            (b"type 4D", b"\x08\x01\x05\x4D", b"5 - - - - - - -"),
        ],
    );
}

// A message of 260 octets, and one of 261.
fn longest(sheet: &mut Sheet) {
    let mut m = [0u8; 261];
    m[0] = 8;
    m[1] = 1;
    m[2] = 5;
    m[3] = 0x20;
    m[4] = 0x7E;
    m[5] = 254;
    reads(sheet, b"260 octets", &m[0..260], b"0 20 0 5 - - - 4+256");
    reads(sheet, b"261 octets", &m[0..261], b"2 - - - - - - -");
}

// Which elements count.
fn counted(sheet: &mut Sheet) {
    read_all(
        sheet,
        &[
            (
                b"7E after a locking shift",
                b"\x08\x01\x05\x05\x96\x7E\x03\x04\x48\x69",
                b"0 05 0 5 - - - -",
            ),
            (
                b"7E after a non-locking shift",
                b"\x08\x01\x05\x05\x9E\x7E\x03\x04\x48\x69",
                b"0 05 0 5 - - - -",
            ),
            (
                b"a shift passed over",
                b"\x08\x01\x05\x05\x9E\x96\x7E\x03\x04\x48\x69",
                b"0 05 0 5 - - - 6+5",
            ),
            (
                b"a shift at the end",
                b"\x08\x01\x05\x05\x9E",
                b"0 05 0 5 - - - -",
            ),
            (
                b"More data in SETUP",
                b"\x08\x01\x05\x05\xA0",
                b"0 05 0 5 - - - -",
            ),
            (
                b"level in USER INFORMATION",
                b"\x08\x01\x05\x20\xB0",
                b"0 20 0 5 - - - -",
            ),
        ],
    );
}

// Both ends of the shifts, and the octet before them, each with two user-user elements after it. After a locking shift
// neither is ours; a non-locking one makes the first passed over, and the second counts; any other octet that stands
// alone is passed over itself, and the first counts.
fn shifts(sheet: &mut Sheet) {
    read_all(
        sheet,
        &[
            (
                b"two elements after 90",
                b"\x08\x01\x05\x05\x90\x7E\x01\x04\x7E\x03\x04\x48\x69",
                b"0 05 0 5 - - - -",
            ),
            (
                b"two elements after 97",
                b"\x08\x01\x05\x05\x97\x7E\x01\x04\x7E\x03\x04\x48\x69",
                b"0 05 0 5 - - - -",
            ),
            (
                b"two elements after 98",
                b"\x08\x01\x05\x05\x98\x7E\x01\x04\x7E\x03\x04\x48\x69",
                b"0 05 0 5 - - - 8+5",
            ),
            (
                b"two elements after 9F",
                b"\x08\x01\x05\x05\x9F\x7E\x01\x04\x7E\x03\x04\x48\x69",
                b"0 05 0 5 - - - 8+5",
            ),
            (
                b"two elements after 8F",
                b"\x08\x01\x05\x05\x8F\x7E\x01\x04\x7E\x03\x04\x48\x69",
                b"0 05 0 5 - - - 5+3",
            ),
        ],
    );
}

// Only B0 and BF are levels: what lies between them is passed over.
fn levels(sheet: &mut Sheet) {
    read_all(
        sheet,
        &[
            (
                b"B1 to BE before BF",
                b"\x08\x01\x05\x79\xB1\xB2\xB3\xB4\xB5\xB6\xB7\xB8\xB9\xBA\xBB\xBC\xBD\xBE\xBF\x08\x02\x82\xAB",
                b"0 79 0 5 43 BF - -",
            ),
            (
                b"B1 to BE before B0",
                b"\x08\x01\x05\x79\xB1\xB2\xB3\xB4\xB5\xB6\xB7\xB8\xB9\xBA\xBB\xBC\xBD\xBE\xB0\x08\x02\x82\xAB",
                b"0 79 0 5 43 B0 - -",
            ),
            (
                b"B1 to BE after B0",
                b"\x08\x01\x05\x79\xB0\xB1\xB2\xB3\xB4\xB5\xB6\xB7\xB8\xB9\xBA\xBB\xBC\xBD\xBE\xBF\x08\x02\x82\xAB",
                b"0 79 0 5 43 B0 - -",
            ),
        ],
    );
}

// The first Cause, and the first three Facility elements that can be read.
fn first_ones(sheet: &mut Sheet) {
    read_all(
        sheet,
        &[
            (
                b"second Cause",
                b"\x08\x01\x05\x45\x08\x02\x82\x90\x08\x02\x82\x9F",
                b"0 45 0 5 16 - - -",
            ),
            (
                b"unreadable first Cause",
                b"\x08\x01\x05\x45\x08\x01\x82\x08\x02\x82\x9F",
                b"0 45 0 5 - - - -",
            ),
            (
                b"Cause with an extension",
                b"\x08\x01\x05\x45\x08\x03\x02\x80\x90",
                b"0 45 0 5 16 - - -",
            ),
            // The octet after the location octet and one extension, whatever that extension's top bit says.
            (
                b"Cause with two extensions",
                b"\x08\x01\x05\x45\x08\x04\x02\x00\x91\x90",
                b"0 45 0 5 17 - - -",
            ),
            (
                b"four Facility, one unreadable",
                b"\x08\x01\x05\x07\x1C\x06\x91\xA2\x03\x02\x01\x01\x1C\x06\x92\xA2\x03\x02\x01\x02\x1C\x06\x91\xA2\x03\x02\x01\x03\x1C\x06\x91\xA2\x03\x02\x01\x04",
                b"0 07 0 5 - - 1.ok,3.ok,4.ok -",
            ),
            (
                b"four Facility",
                b"\x08\x01\x05\x07\x1C\x06\x91\xA2\x03\x02\x01\x01\x1C\x06\x91\xA2\x03\x02\x01\x02\x1C\x06\x91\xA2\x03\x02\x01\x03\x1C\x06\x91\xA2\x03\x02\x01\x04",
                b"0 07 0 5 - - 1.ok,2.ok,3.ok -",
            ),
        ],
    );
}

fn given(kind: Kind, reference: u16, single: Single, f: Facilities) -> Message {
    let header = Header {
        width: Width::One,
        flag: false,
        reference,
        kind,
    };
    Message {
        header,
        single,
        cause: None,
        facility: f,
    }
}

// An ALERTING that says nothing more.
fn plain(reference: u16) -> Message {
    given(Kind::Alerting, reference, Single::Absent, Facilities::Zero)
}

// A level where none belongs, and none where one does.
fn refused(sheet: &mut Sheet) {
    let ready = given(Kind::Alerting, 5, Single::Ready, Facilities::Zero);
    let no_level = given(Kind::CongestionControl, 5, Single::Absent, Facilities::Zero);
    writes_message(sheet, b"level in ALERTING", ready, b"", Err(Bar::Range));
    writes_message(
        sheet,
        b"no level in CONGESTION CONTROL",
        no_level,
        b"",
        Err(Bar::Range),
    );
}

// Numbers and elements that cannot be written.
fn out_of_range(sheet: &mut Sheet) {
    let number = given(
        Kind::Alerting,
        5,
        Single::Absent,
        Facilities::One(Component::Accepted(128)),
    );
    writes_message(
        sheet,
        b"reference 128 in one octet",
        plain(128),
        b"",
        Err(Bar::Range),
    );
    writes_message(
        sheet,
        b"invoke number 128 in a message",
        number,
        b"",
        Err(Bar::Range),
    );
    writes_message(
        sheet,
        b"element of another length",
        plain(127),
        b"\x7E\x02\x04",
        Err(Bar::Range),
    );
}

// 7 comes before 6.
fn no_room(sheet: &mut Sheet) {
    writes_message(sheet, b"ALERTING", plain(127), b"", Ok(b"\x08\x01\x7F\x01"));
    writes_nowhere(sheet, b"no room", plain(127), b"", Bar::Room);
    writes_nowhere(
        sheet,
        b"no room and out of range",
        plain(128),
        b"",
        Bar::Range,
    );
}

pub(crate) fn show_all(sheet: &mut Sheet) {
    calls(sheet);
    answers(sheet);
    faults(sheet);
    longest(sheet);
    counted(sheet);
    shifts(sheet);
    levels(sheet);
    first_ones(sheet);
    refused(sheet);
    out_of_range(sheet);
    no_room(sheet);
}
