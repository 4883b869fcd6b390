// Hexadecimal digits read as octets, piece by piece, with white space and comments between them.
ghost use Rattle.std.specs.Prelude.{◌≡◌};
ghost use Rattle.text.specs.Octets.{joined, step_of, unread_of, alone_of, Spells};
ghost use Rattle.text.specs.Octets.{sign_of as sign_meant};

// What an octet of the text is.
#[derive(Clone, Copy)]
enum Sign {
    Digit(u8),
    Blank,
    Hash,
    Other,
}

// Where reading stands between two octets of the text: comment is from `#` to the end of its line.
#[derive(Clone, Copy)]
pub struct Reading {
    pub pending: Option<u8>,
    pub comment: bool,
}

// What one octet of the text makes of that: nothing is whole yet, an octet is, or it has no place there. Three cases
// and no Result: the definitions `step_of` and `joined` name each of them, and `read_of` goes on from each its own way.
#[derive(Clone, Copy)]
enum Step {
    On(Reading),
    Whole(u8),
    Fault,
}

// used: how many octets of the text were read; wrote: how many octets they make; reading: where reading stands then;
// fault: whether the next octet of the text has no place there. It is a flag and no `Err`, since what was read before a
// fault is written and counted all the same.
#[derive(Clone, Copy)]
pub struct Spelt {
    pub used: usize,
    pub wrote: usize,
    pub reading: Reading,
    pub fault: bool,
}

// The digits are tested range by range: a text is mostly digits, and one match over all signs takes a third longer.
#[tactic(auto, unfolding(crate::specs::Octets::sign_of))]
fn sign_of(x: u8) -> Sign
    ensures { result ≡ sign_meant x }
{
    if x.is_ascii_digit() {
        return Sign::Digit(x - b'0');
    }
    if (b'A'..=b'F').contains(&x) {
        return Sign::Digit(x - b'A' + 10);
    }
    if (b'a'..=b'f').contains(&x) {
        return Sign::Digit(x - b'a' + 10);
    }
    match x {
        b' ' | b'\t' | b'\r' | b'\n' => Sign::Blank,
        b'#' => Sign::Hash,
        _ => Sign::Other,
    }
}

fn with_digit(p: Option<u8>, d: u8) -> Step
    ensures { result ≡ joined p d }
{
    match p {
        None => Step::On(Reading {
            pending: Some(d),
            comment: false,
        }),
        Some(h) => Step::Whole(h % 16 * 16 + d % 16),
    }
}

// A comment ends with its line.
#[tactic(auto, unfolding(crate::specs::Octets::step_of))]
fn stepped(s: Reading, x: u8) -> Step
    ensures { result ≡ step_of s x }
{
    if s.comment {
        return Step::On(Reading {
            comment: x != b'\n',
            ..s
        });
    }
    match sign_of(x) {
        Sign::Digit(d) => with_digit(s.pending, d),
        Sign::Blank => Step::On(s),
        Sign::Hash => Step::On(Reading { comment: true, ..s }),
        Sign::Other => Step::Fault,
    }
}

// Before any text.
pub fn unread() -> Reading
    ensures { result ≡ unread_of }
{
    Reading {
        pending: None,
        comment: false,
    }
}

// Whether a digit stands alone where the text ends.
pub fn alone(s: Reading) -> bool
    ensures { result ≡ alone_of s.pending }
{
    s.pending.is_some()
}

// Reads a piece of text from where reading stands, and puts its octets at the buffer's front. It ends early at a fault,
// and before an octet for which the buffer has no room. wrote is counted by hand: it is the answer, as `Spells` says,
// and not every octet of the text makes one.
#[tactic(auto, using(crate::proofs::Spelling::begins, crate::proofs::Spelling::takes, crate::proofs::Spelling::spells))]
pub fn read_octets(text: &[u8], s: Reading, out: &mut [u8]) -> Spelt
    ensures { Spells text.now s out.old out.new result }
{
    let mut wrote: usize = 0;
    let mut reading = s;
    for (used, x) in text.iter().enumerate() {
        match stepped(reading, *x) {
            Step::On(next) => reading = next,
            Step::Whole(y) => {
                if wrote >= out.len() {
                    return Spelt {
                        used,
                        wrote,
                        reading,
                        fault: false,
                    };
                }
                out[wrote] = y;
                wrote += 1;
                reading = unread();
            }
            Step::Fault => {
                return Spelt {
                    used,
                    wrote,
                    reading,
                    fault: true,
                };
            }
        }
    }
    Spelt {
        used: text.len(),
        wrote,
        reading,
        fault: false,
    }
}
