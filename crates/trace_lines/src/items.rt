// What a message says, item by item, as a column of a line.
ghost use Rattle.std.specs.Prelude.{◌∷◌, ◌+◌, length};
ghost use Rattle.text.specs.Columns.{column};
ghost use Rattle.trace_lines.specs.Items.{cause_item, level_item, said_item, more_item, element_item, items_of, commas, joined, message_column};
ghost use Rattle.trace_lines.specs.InPlace.{Grows, Spare};

use crate::in_place::InPlace;
use sent::{Level, Message};
use services::Said;

// The items of a message take at most 79 octets. Each function here, and in the lines that these columns are part of,
// asks for room for the longest that it puts there: another number for each.

#[tactic(auto, unfolding(crate::specs::Items::commas), using(crate::proofs::Grown::nothing))]
fn put_cause(line: &mut InPlace, c: Option<u8>)
    requires { Spare 27 line.old }
    ensures { Grows 27 (commas (cause_item c)) line.old line.new }
{
    if let Some(n) = c {
        line.put(b",cause.");
        line.put_decimal(u64::from(n));
    }
}

#[tactic(auto, unfolding(crate::specs::Items::commas), using(crate::proofs::Grown::nothing))]
fn put_level(line: &mut InPlace, l: Level)
    requires { Spare 9 line.old }
    ensures { Grows 9 (commas (level_item l)) line.old line.new }
{
    match l {
        Level::Absent => {}
        Level::Ready => line.put(b",ready"),
        Level::NotReady => line.put(b",notready"),
    }
}

// An item of a service: its digit, and what is said of it.
#[tactic(auto, using(crate::proofs::Grown::both, crate::proofs::Grown::as_long, crate::proofs::Grown::next))]
fn put_service(line: &mut InPlace, digit: u8, what: &[u8])
    requires { Spare (2 + length what.now) line.old }
    ensures { Grows (2 + length what.now) (44 ∷ digit ∷ what.now) line.old line.new }
{
    line.put(&[b',', digit]);
    line.put(what);
}

// What is said of the service with this digit.
#[tactic(auto, unfolding(crate::specs::Items::commas), using(crate::proofs::Grown::nothing))]
fn put_said(line: &mut InPlace, digit: u8, s: Said)
    requires { Spare 10 line.old }
    ensures { Grows 10 (commas (said_item digit s)) line.old line.new }
{
    match s {
        Said::Nothing => {}
        Said::Preferred => put_service(line, digit, b".p"),
        Said::Required => put_service(line, digit, b".r"),
        Said::Accepted => put_service(line, digit, b".ok"),
        Said::ByUser => put_service(line, digit, b".user"),
        Said::ByNetwork => put_service(line, digit, b".network"),
    }
}

// This and the next stay two: each meets a definition of its own, `more_item` and `element_item`, that asks for room
// for its own word.
#[tactic(auto, unfolding(crate::specs::Items::commas), using(crate::proofs::Grown::nothing))]
fn put_more(line: &mut InPlace, more: bool)
    requires { Spare 5 line.old }
    ensures { Grows 5 (commas (more_item more)) line.old line.new }
{
    if more {
        line.put(b",more");
    }
}

#[tactic(auto, unfolding(crate::specs::Items::commas), using(crate::proofs::Grown::nothing))]
fn put_element(line: &mut InPlace, element: bool)
    requires { Spare 8 line.old }
    ensures { Grows 8 (commas (element_item element)) line.old line.new }
{
    if element {
        line.put(b",element");
    }
}

// All items of a message, each after a `,`.
fn put_items(line: &mut InPlace, m: Message)
    requires { Spare 79 line.old }
    ensures { Grows 79 (commas (items_of m)) line.old line.new }
{
    put_cause(line, m.cause);
    put_level(line, m.level);
    put_said(line, b'1', m.said.one);
    put_said(line, b'2', m.said.two);
    put_said(line, b'3', m.said.three);
    put_more(line, m.more);
    put_element(line, m.element);
}

// The column of a message. The `,` before its first item gives way to the space before the column.
fn put_message(line: &mut InPlace, m: Message)
    requires { Spare 79 line.old }
    ensures { Grows 79 (column (joined (items_of m))) line.old line.new }
{
    let start = line.end;
    put_items(line, m);
    if line.end == start {
        line.put(b" bare");
    } else {
        line.octets[start] = b' ';
    }
}

// The column of what is sent to a user.
pub(crate) fn put_sent(line: &mut InPlace, s: Option<Message>)
    requires { Spare 79 line.old }
    ensures { Grows 79 (column (message_column s)) line.old line.new }
{
    match s {
        None => line.put(b" -"),
        Some(m) => put_message(line, m),
    }
}
