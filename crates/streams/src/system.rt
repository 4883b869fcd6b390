// What became of a call of the system's that moves octets, and what is said where it failed.
ghost use Rattle.std.specs.Prelude.{◌≡◌, MatchResult};
ghost use Rattle.streams.specs.Outcome.{count_of};

use crate::{Failed, Host};
use arrayvec::ArrayVec;
use std::io;
use std::io::{Error, ErrorKind, Write};
use std::thread::sleep;
use std::time::Duration;

// Says what failed, with the system's number for it and the system's words. These end with the number in brackets, and
// here they go without it.
pub(crate) fn complain(rt: &impl Host, what: &str, error: Error) {
    let number = error.raw_os_error().unwrap_or(0);
    let mut line = ArrayVec::<u8, 320>::new();
    let _ = write!(line, "{what} ({number}): {error}");
    if let Some(bracket) = line.iter().rposition(|b| *b == b'(') {
        line.truncate(bracket.saturating_sub(1));
    }
    let _ = line.try_push(b'\n');
    rt.tell(line.as_slice());
}

// Whether a call that failed is to be made again: at once where a signal broke in on it, and after a millisecond where
// it could not do anything yet. There is no way to be woken by what it waits for.
fn passes(rt: &impl Host, kind: ErrorKind) -> bool {
    match kind {
        ErrorKind::WouldBlock => {
            sleep(rt, Duration::from_millis(1));
            true
        }
        ErrorKind::Interrupted => true,
        _ => false,
    }
}

// How many octets a call moved that was to move some; nothing where it moved none, and the same call may do better.
pub(crate) fn outcome_of(
    rt: &impl Host,
    answer: io::Result<usize>,
    what: &str,
) -> Result<Option<usize>, Failed>
    ensures { MatchResult answer (λ n. count_of result ≡ n) (λ _. count_of result ≡ 0) }
{
    match answer {
        Ok(n) => Ok(Some(n)),
        Err(e) if passes(rt, e.kind()) => Ok(None),
        Err(e) => {
            complain(rt, what, e);
            Err(Failed)
        }
    }
}
