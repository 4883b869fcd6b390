// What is said of a trace's fault: which record it is, the octet at which that begins, and which field.
ghost use Rattle.std.specs.Prelude.{true, [], ◌∷◌, ◌++◌, ◌+◌, ◌≤◌, length};
ghost use Rattle.memory.specs.Room.{Written};
ghost use Rattle.text.specs.Line.{Gains};
ghost use Rattle.text.specs.Service.{service_digit};
ghost use Rattle.trace_lines.specs.Words.{field_name, fault_words, place_words, words_of};

use memory::{Bar, write_octets};
use rights::Service;
use text::line::Line;
use text::service::service_digit;
use trace::{Fault, Field};

// What is said is laid out in 100 octets: 59 for the place, 40 for the fault, and the end of the line. Each function
// asks for room for the longest that it puts there: a fact of its words, and another for each.

// A word, and the digit of a service after it.
fn put_service(line: &mut Line<100>, word: &[u8], s: Service)
    requires { length line.old + (length word.now + 1) ≤ 100 }
    ensures { Gains (length word.now + 1) (word.now ++ service_digit s ∷ []) line.old line.new }
{
    line.put(word);
    line.put(&[service_digit(s)]);
}

fn put_name(line: &mut Line<100>, f: Field)
    requires { length line.old + 24 ≤ 100 }
    ensures { Gains 24 (field_name f) line.old line.new }
{
    match f {
        Field::Late => line.put(b"late"),
        Field::Leave => line.put(b"leave"),
        Field::Side => line.put(b"side"),
        Field::What => line.put(b"what"),
        Field::Cause => line.put(b"cause"),
        Field::Request(s) => put_service(line, b"request ", s),
        Field::Answer(s) => put_service(line, b"answer ", s),
        Field::Element => line.put(b"element"),
        Field::Zeros => line.put(b"what follows the element"),
    }
}

fn put_fault(line: &mut Line<100>, f: Fault)
    requires { length line.old + 40 ≤ 100 }
    ensures { Gains 40 (fault_words f) line.old line.new }
{
    match f {
        Fault::Kind => line.put(b"unknown kind"),
        Fault::Short => line.put(b"cut short"),
        Fault::Range(x) => {
            put_name(line, x);
            line.put(b" is out of range");
        }
    }
}

#[tactic(auto, unfolding(crate::specs::Words::place_words))]
fn put_place(line: &mut Line<100>, number: u64, octet: u64)
    requires { length line.old + 59 ≤ 100 }
    ensures { Gains 59 (place_words number octet) line.old line.new }
{
    line.put_numbered(b"record ", number);
    line.put_numbered(b" at octet ", octet);
    line.put(b": ");
}

#[tactic(auto, unfolding(crate::specs::Words::words_of))]
fn put_words(line: &mut Line<100>, number: u64, octet: u64, f: Fault)
    requires { length line.old + 100 ≤ 100 }
    ensures { Gains 100 (words_of number octet f) line.old line.new }
{
    put_place(line, number, octet);
    put_fault(line, f);
    line.put(b"\n");
}

// Writes what is said of a fault into a buffer from a place on, as `Written` names both; where it does not fit,
// nothing. number: which record is faulty, from 1;
// octet: where it begins in the trace.
pub fn write_words(
    buf: &mut [u8],
    at: usize,
    number: u64,
    octet: u64,
    f: Fault,
) -> Result<usize, Bar>
    ensures { Written true at (words_of number octet f) buf.old buf.new result }
{
    let mut line = Line::new();
    put_words(&mut line, number, octet, f);
    write_octets(buf, at, line.text())
}
