// A piece of trace worked off at a lent table, or at one by value: each record's event, and its line.
#![tactic(auto)]

ghost use Rattle.std.specs.Prelude.{◌≡◌, true, IfOk, IfErr};
ghost use Rattle.memory.specs.Room.{Written};
ghost use Rattle.trace_run.specs.Course.{turned_at, lines};
ghost use Rattle.trace_run.specs.Run.{line_at, so_far, WorkedOff};

use crate::entry::columns_of;
use crate::front::front_of;
use call::Call;
use memory::Bar;
use table::plan::plans;
use table::step::{commit, look};
use trace::kind::size;
use trace::{Entry, Fault, element};
use trace_lines::notices::write_fault;
use trace_lines::report::write_line;

mod entry;
pub mod front;

// Where a run stands. used: how many octets of the piece; wrote: how many octets of text; records: how many records;
// end: the fault that ended the run.
#[derive(Clone, Copy)]
pub struct Stand {
    pub used: usize,
    pub wrote: usize,
    pub records: usize,
    pub end: Option<Fault>,
}

// The table that a piece leaves, and where the run then stands: its parts one by one, as `WorkedOff` names them.
#[derive(Clone, Copy)]
pub struct Worked {
    pub calls: [Call; 32],
    pub used: usize,
    pub wrote: usize,
    pub records: usize,
    pub end: Option<Fault>,
}

// A whole record, which `rest` begins with, prints its line, and only then has something put into the table.
#[tactic(auto, using(crate::proofs::Running::line_so, crate::proofs::Running::left_so))]
fn record_turn(
    t: &mut [Call],
    e: Entry,
    rest: &[u8],
    explained: bool,
    out: &mut [u8],
    at: usize,
) -> Result<usize, Bar>
    ensures text { Written true at (line_at (lines explained) t.old e rest.now) out.old out.new result }
    ensures taken { IfOk result (λ wrote. t.new ≡ (turned_at t.old e rest.now).calls) }
    ensures refused { IfErr result (λ bar. t.new ≡ t.old) }
{
    let plan = plans(look(t, e.reference, e.event), e.event, element(rest, e));
    let wrote = write_line(out, at, explained, columns_of(e, plan.outcome))?;
    commit(t, plan.put);
    Ok(wrote)
}

// Works off the records at the front of a piece of trace, at a table that is lent for the whole of it: as many as are
// whole and have lines that fit the buffer, up to a fault. last: nothing comes after the piece. What was not used is
// the front of the next piece. explained: a flag, as the definition `lines` takes it. What was used, written and worked
// off is counted by the loop itself: the counts are the answer, as `WorkedOff` says.
pub fn work_off_at(
    t: &mut [Call],
    piece: &[u8],
    last: bool,
    explained: bool,
    out: &mut [u8],
) -> Stand
    ensures { WorkedOff (lines explained) last t.old piece.now out.old out.new (so_far t.new result.used result.wrote result.records result.end) }
{
    let mut s = Stand {
        used: 0,
        wrote: 0,
        records: 0,
        end: None,
    };
    'records: loop {
        let rest = &piece[s.used..];
        match front_of(last, rest) {
            None => return s,
            Some(Err(fault)) => match write_fault(out, s.wrote, fault) {
                Ok(wrote) => {
                    return Stand {
                        wrote,
                        end: Some(fault),
                        ..s
                    };
                }
                Err(_) => return s,
            },
            Some(Ok(e)) => match record_turn(t, e, rest, explained, out, s.wrote) {
                Ok(wrote) => {
                    s = Stand {
                        used: s.used + size(e.kind),
                        wrote,
                        records: s.records + 1,
                        end: None,
                    };
                }
                Err(_) => return s,
            },
        }
    }
}

// The same for a table by value, which goes in and comes out once a piece.
pub fn work_off(
    mut calls: [Call; 32],
    piece: &[u8],
    last: bool,
    explained: bool,
    out: &mut [u8],
) -> Worked
    ensures { WorkedOff (lines explained) last calls piece.now out.old out.new result }
{
    let s = work_off_at(&mut calls, piece, last, explained, out);
    Worked {
        calls,
        used: s.used,
        wrote: s.wrote,
        records: s.records,
        end: s.end,
    }
}
