// The lines of a trace that are no record's: the one that comes before all others, and the one of a fault.
ghost use Rattle.std.specs.Prelude.{true};
ghost use Rattle.memory.specs.Room.{Written};
ghost use Rattle.trace_lines.specs.Notices.{first_line, fault_line};

use memory::{Bar, write_octets};
use trace::Fault;

// Writes the line that comes before all others.
pub fn write_first(buf: &mut [u8], at: usize, explained: bool) -> Result<usize, Bar>
    ensures { Written true at (first_line explained) buf.old buf.new result }
{
    let line: &[u8] = if explained {
        b"kind ref answer note calling called to-calling to-called\n"
    } else {
        b"kind ref answer note calling called\n"
    };
    write_octets(buf, at, line)
}

// Writes the line that ends a run at a fault of the trace.
#[tactic(auto, unfolding(text::specs::Decimal::decimal_of, text::specs::Decimal::digits_of))]
pub fn write_fault(buf: &mut [u8], at: usize, f: Fault) -> Result<usize, Bar>
    ensures { Written true at (fault_line f) buf.old buf.new result }
{
    let line = match f {
        Fault::Kind => b"error 31\n",
        Fault::Short => b"error 32\n",
        Fault::Range(_) => b"error 33\n",
    };
    write_octets(buf, at, line)
}
