// The line of one message: what is printed of it, column by column.
#![tactic(auto)]

ghost use Rattle.std.specs.Prelude.{◌≡◌, true, ◌++◌, ◌+◌, ◌≤◌, length};
ghost use Rattle.memory.specs.Room.{Written};
ghost use Rattle.message_fields.specs.Numbers.{fault_number};
ghost use Rattle.text.specs.Hex.{hex_of};
ghost use Rattle.text.specs.Line.{Gains};
ghost use Rattle.text.specs.Columns.{column};
ghost use Rattle.message_line.specs.Column.{facility_column};
ghost use Rattle.message_line.specs.Columns.{flag_digit, head_columns, cause_column, single_column, element_column, taken_columns, columns_of};
ghost use Rattle.message_line.specs.Line.{line_of, line_with};

use crate::facilities::put_facilities;
use memory::{Bar, write_octets};
use message::read_message;
use message_fields::{Fault, Header, Message, Place, Reading, Single};
use message_types::kind_octet;
use text::line::Line;

mod facilities;

// A line is laid out in 221 octets: 20 for its offset, 200 for its columns, and its end. Each function that puts
// something on it asks for room for the longest that it puts there: a fact of the column, and another for each.

// A column of two hexadecimal digits.
fn put_hex(line: &mut Line<221>, x: u8)
    requires { length line.old + 3 ≤ 221 }
    ensures { Gains 3 (column (hex_of x)) line.old line.new }
{
    line.put(b" ");
    line.put_hex(x);
}

fn flag_digit(flag: bool) -> u8
    ensures { result ≡ flag_digit flag }
{
    b'0' + u8::from(flag)
}

// The type, the flag and the reference.
#[tactic(auto, unfolding(crate::specs::Columns::head_columns))]
fn put_head(line: &mut Line<221>, h: Header)
    requires { length line.old + 26 ≤ 221 }
    ensures { Gains 26 (head_columns h) line.old line.new }
{
    put_hex(line, kind_octet(h.kind));
    line.put(&[b' ', flag_digit(h.flag)]);
    line.put_numbered(b" ", u64::from(h.reference));
}

fn put_cause(line: &mut Line<221>, c: Option<u8>)
    requires { length line.old + 21 ≤ 221 }
    ensures { Gains 21 (column (cause_column c)) line.old line.new }
{
    match c {
        None => line.put(b" -"),
        Some(v) => line.put_numbered(b" ", u64::from(v)),
    }
}

fn put_single(line: &mut Line<221>, s: Single)
    requires { length line.old + 3 ≤ 221 }
    ensures { Gains 3 (column (single_column s)) line.old line.new }
{
    match s {
        Single::Absent => line.put(b" -"),
        Single::MoreData => put_hex(line, 0xA0),
        Single::Ready => put_hex(line, 0xB0),
        Single::NotReady => put_hex(line, 0xBF),
    }
}

fn put_element(line: &mut Line<221>, p: Option<Place>)
    requires { length line.old + 42 ≤ 221 }
    ensures { Gains 42 (column (element_column p)) line.old line.new }
{
    match p {
        None => line.put(b" -"),
        Some(p) => {
            line.put_numbered(b" ", p.at as u64);
            line.put_numbered(b"+", p.size as u64);
        }
    }
}

fn put_message(line: &mut Line<221>, m: Message)
    requires { length line.old + 137 ≤ 221 }
    ensures { Gains 137 (head_columns m.header ++ column (cause_column m.cause) ++ column (single_column m.single) ++ column (facility_column m.facility)) line.old line.new }
{
    put_head(line, m.header);
    put_cause(line, m.cause);
    put_single(line, m.single);
    put_facilities(line, m.facility);
}

// The columns of a message that was taken.
#[tactic(auto, unfolding(crate::specs::Columns::taken_columns))]
fn put_taken(line: &mut Line<221>, r: Reading)
    requires { length line.old + 200 ≤ 221 }
    ensures { Gains 200 (taken_columns r) line.old line.new }
{
    line.put_numbered(b" ", 0);
    put_message(line, r.message);
    put_element(line, r.user);
}

fn fault_number(f: Fault) -> u64
    ensures { result ≡ fault_number f }
{
    f as u64
}

#[tactic(auto, unfolding(crate::specs::Columns::columns_of))]
fn put_refused(line: &mut Line<221>, f: Fault)
    requires { length line.old + 35 ≤ 221 }
    ensures { Gains 35 (columns_of (Err f)) line.old line.new }
{
    line.put_numbered(b" ", fault_number(f));
    line.put(b" - - - - - - -");
}

// The columns after the first.
#[tactic(auto, unfolding(crate::specs::Columns::columns_of))]
fn put_columns(line: &mut Line<221>, r: Result<Reading, Fault>)
    requires { length line.old + 200 ≤ 221 }
    ensures { Gains 200 (columns_of r) line.old line.new }
{
    match r {
        Ok(t) => put_taken(line, t),
        Err(f) => put_refused(line, f),
    }
}

// Writes the line of a message that starts at an offset of its capture into a buffer from a place on, as `Written`
// names both; where the line does not fit, nothing. It is laid out apart first, since how long it is shows only when
// it is there.
#[tactic(auto, unfolding(crate::specs::Line::line_of, crate::specs::Line::line_with))]
pub fn write_line(buf: &mut [u8], at: usize, offset: u64, m: &[u8]) -> Result<usize, Bar>
    ensures { Written true at (line_of offset m.now) buf.old buf.new result }
{
    let mut line = Line::new();
    line.put_decimal(offset);
    put_columns(&mut line, read_message(m));
    line.put(b"\n");
    write_octets(buf, at, line.text())
}
