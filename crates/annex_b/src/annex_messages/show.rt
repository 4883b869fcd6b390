// A case on a whole message: read, written, or both.
use crate::annex_case::{Sheet, case, says, wrote};
use memory::Bar;
use message::parts::user_user;
use message::read_message;
use message_fields::Message;
use writer::write_message;

// A message is read: its number, and the columns of its line after it.
pub(crate) fn reads(sheet: &mut Sheet, name: &[u8], m: &[u8], expected: &[u8]) {
    says(sheet, name, m, 2, 1, expected);
}

// A message is written with its user-user element, where there is room for it, or refused.
pub(crate) fn writes_message(
    sheet: &mut Sheet,
    name: &[u8],
    m: Message,
    user: &[u8],
    expected: Result<&[u8], Bar>,
) {
    let mut buf = [0xEEu8; 280];
    let w = write_message(&mut buf, m, user);
    wrote(sheet, name, w, &buf, expected);
}

// The same, into a buffer of one octet: it is refused.
pub(crate) fn writes_nowhere(sheet: &mut Sheet, name: &[u8], m: Message, user: &[u8], bar: Bar) {
    let mut buf = [0xEEu8; 1];
    let w = write_message(&mut buf, m, user);
    wrote(sheet, name, w, &buf, Err(bar));
}

// A message is read, and what was read is written again: the same octets.
fn both(sheet: &mut Sheet, name: &[u8], m: &[u8], expected: &[u8]) {
    reads(sheet, name, m, expected);
    match read_message(m) {
        Ok(r) => {
            writes_message(sheet, b"  written", r.message, user_user(m), Ok(m));
        }
        Err(_) => case(sheet, b"  written", b"-", false),
    }
}

// Each case: a name, a message, and its columns.
pub(crate) fn read_all(sheet: &mut Sheet, cases: &[(&[u8], &[u8], &[u8])]) {
    for (name, m, expected) in cases {
        reads(sheet, name, m, expected);
    }
}

pub(crate) fn both_all(sheet: &mut Sheet, cases: &[(&[u8], &[u8], &[u8])]) {
    for (name, m, expected) in cases {
        both(sheet, name, m, expected);
    }
}
