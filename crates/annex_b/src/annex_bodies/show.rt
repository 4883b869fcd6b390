// A case on the body of a Facility element: read, or written as a whole element.
use crate::annex_case::{Sheet, case, says, wrote};
use facility::Component;
use facility::filling::write_facility;
use memory::Bar;
use text::line::Line;

// A Facility body is read, as that of the one element of a FACILITY message: what stands in the column of its
// components. No body of a case is longer than its length octet says.
fn reads_body(sheet: &mut Sheet, name: &[u8], body: &[u8], expected: &[u8]) {
    let Ok(length) = u8::try_from(body.len()) else {
        return case(sheet, name, b"-", false);
    };
    let mut m = Line::<64>::new();
    m.put(b"\x08\x01\x01\x62\x1C");
    m.put(&[length]);
    m.put(body);
    says(sheet, name, m.text(), 15, 3, expected);
}

// A component is written as a whole element, or refused.
fn writes(sheet: &mut Sheet, name: &[u8], c: Component, expected: Result<&[u8], Bar>) {
    let mut buf = [0xEEu8; 32];
    let w = write_facility(&mut buf, 0, c);
    wrote(sheet, name, w, &buf, expected);
}

// Each case: a name, a body, and what is to stand in the column.
pub(crate) fn read_bodies(sheet: &mut Sheet, cases: &[(&[u8], &[u8], &[u8])]) {
    for (name, body, expected) in cases {
        reads_body(sheet, name, body, expected);
    }
}

// Each case: a name, a component, and its octets, or why it is refused.
pub(crate) fn write_components(
    sheet: &mut Sheet,
    cases: &[(&[u8], Component, Result<&[u8], Bar>)],
) {
    for (name, component, expected) in cases {
        writes(sheet, name, *component, *expected);
    }
}
