// Turns hexadecimal digits into octets: standard input to standard output, in a fixed amount of memory. What the digits
// spell is computed in `text::octets`; here octets are only read and written.
#![tactic(auto)]

use streams::{Failed, Host, fetch, held, say, send};
use text::line::Line;
use text::octets::{alone, read_octets, unread};

// Says which octet of the text, counted from 0, has no place there.
fn say_fault(rt: &impl Host, at: u64) {
    let mut line = Line::<61>::new();
    line.put(b"octet ");
    line.put_decimal(at);
    line.put(b" of the text: no hexadecimal digit\n");
    say(rt, line.text());
}

// Spells the text from its start to its end, or to a fault. Nothing more is read or sent after a read or a write that
// failed.
fn spell(rt: &impl Host) -> Result<(), Failed> {
    let mut buf = [0u8; 65536];
    let mut out = [0u8; 65536];
    // What of the text is in the buffer and not read yet, from one place to another.
    let mut from: usize = 0;
    let mut to: usize = 0;
    // How many octets of the text came before it, and where reading stands.
    let mut at: u64 = 0;
    let mut reading = unread();
    // The text is read to its end. A loop has to be seen to end, so its turns are counted.
    for _ in 0..u64::MAX {
        if from < to {
            let spelt = read_octets(held(&buf, from, to), reading, &mut out);
            send(rt, held(&out, 0, spelt.wrote))?;
            from = from.wrapping_add(spelt.used);
            at = at.wrapping_add(spelt.used as u64);
            reading = spelt.reading;
            if spelt.fault {
                say_fault(rt, at);
                return Ok(());
            }
        } else {
            let fetched = fetch(rt, &mut buf, from, to);
            from = 0;
            to = fetched.to;
            if !fetched.came? {
                if alone(reading) {
                    say(rt, b"a digit stands alone at the end\n");
                }
                return Ok(());
            }
        }
    }
    Ok(())
}

fn main(rt: HostRuntime) {
    // Where a read or a write failed, that was said.
    let _ = spell(&rt);
}
