// What `replay` and `explain` share: a trace from standard input to standard output, in a fixed amount of memory. What
// is printed and said is computed in `trace_run` and `trace_lines`; here octets are read, kept, counted and written.
#![tactic(auto)]

use call::Call;
use memory::end_of;
use streams::{Failed, Host, fetch, held, say, send};
use trace::Fault;
use trace_lines::notices::write_first;
use trace_lines::words::write_words;
use trace_run::work_off;

// A line is written into a buffer from a place on, as `Written` says it of every writer, and sent from there.
fn complain(rt: &impl Host, f: Fault, number: u64, octet: u64) {
    let mut line = [0u8; 100];
    let n = end_of(write_words(&mut line, 0, number, octet, f));
    say(rt, held(&line, 0, n));
}

// Prints the trace from its start to its end, or to a fault, of which it is said what it is. Nothing more is read or
// written after a read that failed, when what is held may be the front of a sound record, nor after a write that did.
fn print(rt: &impl Host, explained: bool) -> Result<(), Failed> {
    let mut buf = [0u8; 131072];
    let mut out = [0u8; 131072];
    let first = end_of(write_first(&mut out, 0, explained));
    send(rt, held(&out, 0, first))?;
    // 32 places, all fresh.
    let mut calls = [Call::fresh(); 32];
    // What of the trace is in the buffer and not worked off yet, from one place to another, whether nothing comes after
    // it, and how many records and octets came before it.
    let mut from: usize = 0;
    let mut to: usize = 0;
    let mut last = false;
    let mut records: u64 = 0;
    let mut octets: u64 = 0;
    // The trace is read to its end. A loop has to be seen to end, so its turns are counted.
    'turns: for _ in 0..u64::MAX {
        let done = work_off(calls, held(&buf, from, to), last, explained, &mut out);
        if done.wrote > 0 {
            send(rt, held(&out, 0, done.wrote))?;
            calls = done.calls;
            from = from.wrapping_add(done.used);
            records = records.wrapping_add(done.records as u64);
            octets = octets.wrapping_add(done.used as u64);
            if let Some(fault) = done.end {
                complain(rt, fault, records.wrapping_add(1), octets);
                return Ok(());
            }
        } else if last {
            return Ok(());
        } else {
            let fetched = fetch(rt, &mut buf, from, to);
            from = 0;
            to = fetched.to;
            last = !fetched.came?;
        }
    }
    Ok(())
}

// Prints what `replay` prints of a trace, or, explained, `explain`. It is a flag all the way down, since the
// definitions of the lines (`first_line`, `line_of`, `lines`) take one.
pub fn run(rt: &impl Host, explained: bool) {
    // Where a read or a write failed, that was said.
    let _ = print(rt, explained);
}
