// Standard input and output as the programs use them, with a buffer that holds what was read and not used yet. No
// contract can say what is read or written: `send` is proved to reach into no other memory than the buffer's, and
// `fetch` to keep what was held and to say where what was read ends. A call of the system's that a signal breaks in on,
// or that would have to wait, is made again; of one that fails a line is said on standard error.
#![tactic(auto)]

mod system;

ghost use Rattle.std.specs.Prelude.{◌≡◌, ◌≤◌, length, IfOk, MatchResult};
ghost use Rattle.memory.specs.Room.{kept_of};
ghost use Rattle.streams.specs.Outcome.{count_of};
ghost use Rattle.streams.specs.Refill.{ReadAfter, Refilled};

use crate::system::{complain, outcome_of};
use memory::keep;
use std::io::{Error, Input, Print, Read};
use std::time::Clock;

// What a program runs on: standard input and output, a clock to wait by, and standard error.
pub trait Host: Input + Print + Clock {
    // Writes octets to standard error. Where that fails nobody is left to be told.
    fn tell(&self, text: &[u8]);
}

impl Host for HostRuntime {
    fn tell(&self, text: &[u8]) {
        let _ = self.stderr().write_all(text);
    }
}

// Nothing more can be read or sent: a call of the system's failed, and it was said why, or `send` came to the end of
// its tries.
#[derive(Clone, Copy)]
pub struct Failed;

// to: where what the buffer holds ends now; came: whether anything was read, where the read did not fail. Both are told
// in each case, a failed read too: what is held stays, as `Refilled` says.
#[derive(Clone, Copy)]
pub struct Fetched {
    pub to: usize,
    pub came: Result<bool, Failed>,
}

// One write. Nothing taken of something is a failure, or it would be tried for ever; the system names no error for it,
// which its number 0 says.
fn write_once(rt: &impl Host, piece: &[u8]) -> Result<usize, Failed>
    ensures { IfOk result (λ n. n ≤ length piece.now) }
{
    let took = rt.write_some(piece);
    if let Ok(0) = took {
        complain(rt, "write failed", Error::from_raw_os_error(0));
        return Err(Failed);
    }
    Ok(outcome_of(rt, took, "write failed")?.unwrap_or(0))
}

// Sends a piece of octets. The loop ends by a count of its tries, since nothing says that a call which would have to
// wait does better the next time.
pub fn send(rt: &impl Host, piece: &[u8]) -> Result<(), Failed> {
    let mut rest = piece;
    'tries: for _ in 0..u64::MAX {
        if rest.is_empty() {
            return Ok(());
        }
        let took = write_once(rt, rest)?;
        rest = &rest[took..];
    }
    Err(Failed)
}

// Says a text on standard error: `tell` as a function, which docs/PROMISES.md names beside `send` and `fetch`.
pub fn say(rt: &impl Host, text: &[u8]) {
    rt.tell(text);
}

// What a buffer holds from one place to another; nothing where the places do not lie in it.
#[tactic(auto, unfolding(memory::specs::Room::kept_of))]
pub fn held(buf: &[u8], from: usize, to: usize) -> &[u8]
    ensures { result.now ≡ kept_of from to buf.now }
{
    buf.get(from..to).unwrap_or(&[])
}

// One read, after the octets that the buffer holds.
fn read_once(rt: &impl Host, buf: &mut [u8], left: usize) -> Result<Option<usize>, Failed>
    ensures { ReadAfter left buf.old buf.new (count_of result) }
{
    if left >= buf.len() {
        return Ok(Some(0));
    }
    let got = rt.reader().read(&mut buf[left..]);
    outcome_of(rt, got, "read failed")
}

// Reads there until something comes, the input ends, or a read fails. The tries are counted, as in `send`.
fn read_after(rt: &impl Host, buf: &mut [u8], left: usize) -> Result<usize, Failed>
    ensures { MatchResult result (λ n. ReadAfter left buf.old buf.new n) (λ _. ReadAfter left buf.old buf.new 0) }
{
    for _ in 0..u64::MAX {
        if let Some(n) = read_once(rt, buf, left)? {
            return Ok(n);
        }
    }
    Ok(0)
}

// What is held goes to the buffer's front, and more is read after it. Nothing comes at the end of the input, after a
// read that failed, and where the buffer is full.
pub fn fetch(rt: &impl Host, buf: &mut [u8], from: usize, to: usize) -> Fetched
    ensures { Refilled from to buf.old buf.new result }
{
    let left = keep(buf, from, to);
    match read_after(rt, buf, left) {
        Ok(n) => Fetched {
            to: left + n,
            came: Ok(n > 0),
        },
        Err(failed) => Fetched {
            to: left,
            came: Err(failed),
        },
    }
}
