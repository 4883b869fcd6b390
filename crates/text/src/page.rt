// A page: text that grows in a buffer which the caller lends. It stands at the front and has no zeros; zeros come after
// it. A host that lends such a buffer is who calls these: docs/PROMISES.md promises the four by their names.
ghost use Rattle.std.specs.Prelude.{◌≡◌, ◌==◌, true, position};
ghost use Rattle.memory.specs.Room.{Written};
ghost use Rattle.text.specs.Decimal.{decimal_of};
ghost use Rattle.text.specs.Hex.{hex_of};
ghost use Rattle.text.specs.Page.{text_end};

use crate::decimal::write_decimal;
use crate::hex::write_hex;
use memory::{Bar, write_octets};

fn first_zero(page: &[u8]) -> Option<usize>
    ensures { result ≡ position (λ x. x == 0) page.now }
{
    page.iter().position(|x| *x == 0)
}

// Where the text of a page ends.
#[tactic(auto, using(crate::proofs::Paging::or_its_end))]
pub fn text_end(page: &[u8]) -> usize
    ensures { result ≡ text_end page.now }
{
    first_zero(page).unwrap_or(page.len())
}

// Puts a piece after the text; where it does not fit, nothing. This and the next two are promised by their names, each
// of a piece of its own: octets, `decimal_of` and `hex_of`.
pub fn add(page: &mut [u8], piece: &[u8]) -> Result<usize, Bar>
    ensures { Written true (text_end page.old) piece.now page.old page.new result }
{
    let at = text_end(page);
    write_octets(page, at, piece)
}

// The same with a number in decimal digits.
pub fn add_decimal(page: &mut [u8], n: u64) -> Result<usize, Bar>
    ensures { Written true (text_end page.old) (decimal_of n) page.old page.new result }
{
    let at = text_end(page);
    write_decimal(page, at, n)
}

// The same with an octet in two hexadecimal digits.
pub fn add_hex(page: &mut [u8], x: u8) -> Result<usize, Bar>
    ensures { Written true (text_end page.old) (hex_of x) page.old page.new result }
{
    let at = text_end(page);
    write_hex(page, at, x)
}
