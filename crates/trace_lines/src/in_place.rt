// A line that grows piece by piece in octets that somebody lends: where it is to stand, or apart.
ghost use Rattle.std.specs.Prelude.{◌++◌, ◌+◌, ◌≤◌, length};
ghost use Rattle.text.specs.Decimal.{decimal_of};
ghost use Rattle.text.specs.Hex.{hex_of};
ghost use Rattle.trace_lines.specs.InPlace.{Grows, Spare};

use memory::{end_of, write_octets};
use text::decimal::write_decimal;
use text::hex::write_hex;

// The octets are lent, and the line ends at a place in them. Who puts a piece on it has room for the longest. A contract
// sees both, and not the text alone: who lent the octets knows then what stands in them around the line.
#[derive(Drop)]
pub(crate) struct InPlace<'a> {
    pub(crate) octets: &'a mut [u8],
    pub(crate) end: usize,
}

impl InPlace<'_> {
    // A piece of octets comes after the text.
    #[tactic(auto, unfolding(memory::specs::Room::wrote_of, memory::specs::Room::left_of), using(crate::proofs::Grown::as_long))]
    pub(crate) fn put(&mut self, piece: &[u8])
        requires { Spare (length piece.now) self.old }
        ensures { Grows (length piece.now) piece.now self.old self.new }
    {
        self.end = end_of(write_octets(self.octets, self.end, piece));
    }

    // The same with a number in decimal digits, which are 20 at most.
    #[tactic(auto, unfolding(memory::specs::Room::wrote_of, memory::specs::Room::left_of), using(crate::proofs::Grown::as_long, text::proofs::Digits::at_most_twenty))]
    pub(crate) fn put_decimal(&mut self, n: u64)
        requires { Spare 20 self.old }
        ensures { Grows 20 (decimal_of n) self.old self.new }
    {
        self.end = end_of(write_decimal(self.octets, self.end, n));
    }

    // An octet in two hexadecimal digits.
    #[tactic(auto, unfolding(memory::specs::Room::wrote_of, memory::specs::Room::left_of), using(crate::proofs::Grown::as_long))]
    pub(crate) fn put_hex(&mut self, x: u8)
        requires { Spare 2 self.old }
        ensures { Grows 2 (hex_of x) self.old self.new }
    {
        self.end = end_of(write_hex(self.octets, self.end, x));
    }

    // A word, and a number in decimal digits after it.
    #[tactic(auto, using(crate::proofs::Grown::both, crate::proofs::Grown::as_long, crate::proofs::Grown::next))]
    pub(crate) fn put_numbered(&mut self, word: &[u8], n: u64)
        requires { Spare (length word.now + 20) self.old }
        ensures { Grows (length word.now + 20) (word.now ++ decimal_of n) self.old self.new }
    {
        self.put(word);
        self.put_decimal(n);
    }
}
