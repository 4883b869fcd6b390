// A line that is laid out apart, piece by piece: how long it is shows only when it is there.
ghost use Rattle.std.specs.Prelude.{◌≡◌, [], ◌∷◌, ◌++◌, ◌+◌, ◌<◌, ◌≤◌, length};
ghost use Rattle.text.specs.Decimal.{decimal_of};
ghost use Rattle.text.specs.Hex.{hex_of};
ghost use Rattle.text.specs.Line.{Gains, with_piece};

use crate::hex::hex_digits;
use arrayvec::ArrayVec;
use itoa::Buffer;
use std::marker::Model;

// A line of at most N octets. A contract sees its text. It is laid out piece by piece, and not by Display, since the
// contracts of those who write on it name its octets, and a piece that does not fit is left out whole.
#[derive(Drop)]
pub struct Line<const N: usize> {
    octets: ArrayVec<u8, N>,
}

impl<const N: usize> Model for Line<N> {
    ghost use Rattle.std.specs.Prelude.{ℕ, List};

    ghost Value = { List ℕ };

    ghost view = { λ s. s.octets.items };
}

impl<const N: usize> Line<N> {
    // With no text yet.
    pub fn new() -> Self
        ensures { result ≡ [] }
    {
        Line {
            octets: ArrayVec::new(),
        }
    }

    pub fn text(&self) -> &[u8]
        ensures { result.now ≡ self.now }
    {
        self.octets.as_slice()
    }

    // A piece of octets comes after the text; where it does not fit, nothing.
    #[tactic(auto, unfolding(crate::specs::Line::with_piece))]
    pub fn put(&mut self, piece: &[u8])
        ensures exact { self.new ≡ with_piece N piece.now self.old }
        ensures room { length self.old + length piece.now ≤ N → Gains (length piece.now) piece.now self.old self.new }
    {
        let _ = self.octets.try_extend_from_slice(piece);
    }

    // The same with a number in decimal digits, which are 20 at most.
    #[tactic(auto, using(crate::proofs::Digits::as_printed, crate::proofs::Digits::at_most_twenty))]
    pub fn put_decimal(&mut self, n: u64)
        ensures exact { self.new ≡ with_piece N (decimal_of n) self.old }
        ensures room { length self.old + 20 ≤ N → Gains 20 (decimal_of n) self.old self.new }
    {
        let mut digits = Buffer::new();
        self.put(digits.format(n).as_bytes());
    }

    // A word, and a number in decimal digits after it.
    pub fn put_numbered(&mut self, word: &[u8], n: u64)
        ensures exact { self.new ≡ with_piece N (decimal_of n) (with_piece N word.now self.old) }
        ensures room { length self.old + (length word.now + 20) ≤ N → Gains (length word.now + 20) (word.now ++ decimal_of n) self.old self.new }
    {
        self.put(word);
        self.put_decimal(n);
    }

    // An octet in two hexadecimal digits comes after the text; where they do not fit, nothing.
    pub fn put_hex(&mut self, x: u8)
        ensures exact { self.new ≡ with_piece N (hex_of x) self.old }
        ensures room { length self.old + 2 ≤ N → Gains 2 (hex_of x) self.old self.new }
    {
        self.put(&hex_digits(x));
    }
}
