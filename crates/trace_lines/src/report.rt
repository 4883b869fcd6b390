// What is printed of one record of a trace: a line of columns, in a buffer that the caller lends.
ghost use Rattle.std.specs.Prelude.{true, ◌+◌, ◌≤◌, length};
ghost use Rattle.memory.specs.Putting.{Put};
ghost use Rattle.memory.specs.Room.{Written};
ghost use Rattle.text.specs.Columns.{column};
ghost use Rattle.trace_lines.specs.InPlace.{Grows, Spare};
ghost use Rattle.trace_lines.specs.Line.{type_column, said_columns, number_columns, type_columns, line_of};

use crate::in_place::InPlace;
use crate::items::put_sent;
use answer::note_number;
use memory::{Bar, write_octets};
use message_types::kind_octet;
use sent::Message;
use sent::dispatch::Dispatch;
use trace::kind::{RecordKind, layout_of};
use user_element::Note;

// What the columns of a record say. answer: the paper's number.
#[derive(Clone, Copy)]
pub struct Columns {
    pub kind: RecordKind,
    pub reference: u16,
    pub answer: u8,
    pub note: Note,
    pub dispatch: Dispatch,
}

// A line takes at most 248 octets: 83 for its numbers, 6 for its types, 158 for what the messages say, and its end.
// Each function asks for room for the longest that it puts there: a fact of its columns, and another for each.

#[tactic(auto, using(crate::proofs::Grown::both, crate::proofs::Grown::as_long, crate::proofs::Grown::next))]
fn put_type(line: &mut InPlace, s: Option<Message>)
    requires { Spare 3 line.old }
    ensures { Grows 3 (column (type_column s)) line.old line.new }
{
    match s {
        None => line.put(b" -"),
        Some(m) => {
            line.put(b" ");
            line.put_hex(kind_octet(m.kind));
        }
    }
}

#[tactic(auto, unfolding(crate::specs::Line::type_columns), using(crate::proofs::Grown::both, crate::proofs::Grown::as_long, crate::proofs::Grown::next))]
fn put_types(line: &mut InPlace, o: Columns)
    requires { Spare 6 line.old }
    ensures { Grows 6 (type_columns o) line.old line.new }
{
    put_type(line, o.dispatch.calling);
    put_type(line, o.dispatch.called);
}

// The two columns that only `explain` has.
#[tactic(auto, using(crate::proofs::Grown::nothing, crate::proofs::Grown::both, crate::proofs::Grown::as_long, crate::proofs::Grown::next))]
fn put_saids(line: &mut InPlace, explained: bool, o: Columns)
    requires { Spare 158 line.old }
    ensures { Grows 158 (said_columns explained o) line.old line.new }
{
    if explained {
        put_sent(line, o.dispatch.calling);
        put_sent(line, o.dispatch.called);
    }
}

fn put_numbers(line: &mut InPlace, o: Columns)
    requires { Spare 83 line.old }
    ensures { Grows 83 (number_columns o) line.old line.new }
{
    line.put_decimal(u64::from(layout_of(o.kind).octet));
    line.put_numbered(b" ", u64::from(o.reference));
    line.put_numbered(b" ", u64::from(o.answer));
    line.put_numbered(b" ", u64::from(note_number(o.note)));
}

fn put_line(line: &mut InPlace, explained: bool, o: Columns)
    requires { Spare 248 line.old }
    ensures { Grows 248 (line_of explained o) line.old line.new }
{
    put_numbers(line, o);
    put_types(line, o);
    put_saids(line, explained, o);
    line.put(b"\n");
}

// A whole line from a place on, where there is room for the longest; where it ends.
fn write_there(buf: &mut [u8], at: usize, explained: bool, o: Columns) -> usize
    requires { at + 248 ≤ length buf.old }
    ensures put { Put at (line_of explained o) buf.old buf.new result }
    ensures small { length (line_of explained o) ≤ 248 }
{
    let mut line = InPlace {
        octets: buf,
        end: at,
    };
    put_line(&mut line, explained, o);
    line.end
}

// Writes the line of a record into a buffer from a place on, as `Written` names both; where it does not fit, nothing.
// It is written in place; near the buffer's end it is laid out apart first, since how long it is shows only when it is
// there.
pub fn write_line(buf: &mut [u8], at: usize, explained: bool, o: Columns) -> Result<usize, Bar>
    ensures { Written true at (line_of explained o) buf.old buf.new result }
{
    if at <= buf.len() && buf.len() - at >= 248 {
        return Ok(write_there(buf, at, explained, o));
    }
    let mut apart = [0u8; 248];
    let n = write_there(&mut apart, 0, explained, o);
    write_octets(buf, at, &apart[..n])
}
