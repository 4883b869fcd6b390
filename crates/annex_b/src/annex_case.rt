// A case's line: its name, what was found, and whether that is what was to be found.
use memory::stretch::stretch;
use memory::{Bar, end_of};
use message_line::write_line;
use streams::held;
use text::line::Line;

// All that is shown goes on one sheet, which is then sent; what does not fit is left out.
pub(crate) type Sheet = Line<4096>;

pub(crate) fn case(sheet: &mut Sheet, name: &[u8], found: &[u8], alike: bool) {
    sheet.put(name);
    sheet.put(b": ");
    sheet.put(found);
    sheet.put(if alike { b" ok\n" } else { b" differs\n" });
}

// What the line of a message says from a place on, but for so many octets at its end. The line is written into a buffer
// from a place on, as `Written` has it.
pub(crate) fn says(
    sheet: &mut Sheet,
    name: &[u8],
    m: &[u8],
    from: usize,
    but: usize,
    expected: &[u8],
) {
    let mut line = [0u8; 256];
    let end = end_of(write_line(&mut line, 0, 0, m));
    let found = held(&line, from, end.saturating_sub(but));
    case(sheet, name, found, found == expected);
}

// Octets in hexadecimal digits, two for each.
fn spelt(octets: &[u8]) -> Line<600> {
    let mut digits = Line::new();
    for octet in octets {
        digits.put_hex(*octet);
    }
    digits
}

// What a writer answered, and what it left in a buffer of EE: the octets given, and after them the octets that stood
// there, or where it refused, nothing new. A refusal is shown by its number.
pub(crate) fn wrote(
    sheet: &mut Sheet,
    name: &[u8],
    w: Result<usize, Bar>,
    buf: &[u8],
    expected: Result<&[u8], Bar>,
) {
    let found = w.map(|n| stretch(buf, 0, n));
    let alike = found == expected && buf.get(end_of(w)) == Some(&0xEE);
    match found {
        Ok(octets) => case(sheet, name, spelt(octets).text(), alike),
        Err(Bar::Room) => case(sheet, name, b"6", alike),
        Err(Bar::Range) => case(sheet, name, b"7", alike),
    }
}
