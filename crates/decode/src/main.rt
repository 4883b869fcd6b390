// Prints a capture of messages, a line a message: standard input to standard output, in a fixed amount of memory. What
// a line says is computed in `capture`; here octets are only read and written.
#![tactic(auto)]

use capture::frames::digest;
use capture::margins::{later, write_first, write_last};
use memory::end_of;
use streams::{Failed, Host, fetch, held, send};

// Prints the capture from its start to its end. Only there is it known that what is left over is cut. Nothing more is
// read or written after a read or a write that failed.
fn print(rt: &impl Host) -> Result<(), Failed> {
    let mut buf = [0u8; 131072];
    let mut out = [0u8; 131072];
    // A line is written into a buffer from a place on, as `Written` says it of every writer, and sent from there.
    let first = end_of(write_first(&mut out, 0));
    send(rt, held(&out, 0, first))?;
    // What of the capture is in the buffer and not printed yet, from one place to another, and the offset of its first
    // octet in the capture.
    let mut from: usize = 0;
    let mut to: usize = 0;
    let mut offset: u64 = 0;
    // The capture is read to its end. A loop has to be seen to end, so its turns are counted.
    for _ in 0..u64::MAX {
        let done = digest(held(&buf, from, to), offset, &mut out);
        if done.used > 0 {
            send(rt, held(&out, 0, done.wrote))?;
            from = from.wrapping_add(done.used);
            offset = later(offset, done.used);
        } else {
            let fetched = fetch(rt, &mut buf, from, to);
            from = 0;
            to = fetched.to;
            if !fetched.came? {
                let last = end_of(write_last(&mut out, 0, to));
                return send(rt, held(&out, 0, last));
            }
        }
    }
    Ok(())
}

fn main(rt: HostRuntime) {
    // Where a read or a write failed, that was said.
    let _ = print(&rt);
}
