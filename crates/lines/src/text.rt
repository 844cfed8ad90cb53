// A short text, built up from its front.
ghost use Rattle.std.specs.Prelude.{◌≡◌, [], ◌∷◌, ◌+◌, ◌≤◌, length};
ghost use Rattle.std.proofs.Math.Seq.{paste};
ghost use Rattle.lines.specs.Ascii.{bytes as Ascii·bytes};
ghost use Rattle.lines.specs.Decimal.{decimal as Decimal·decimal};
ghost use Rattle.lines.specs.Line.{spaced, separator, move_field};
ghost use Rattle.lines.specs.Text.{longest, Grown, Spells};

use table::Move;

// The most bytes of a text: the longest line has fewer.
pub const LONGEST: usize = 192;

// At most 192 bytes: the first `n` of the buffer. The others are 0. The buffer is part of the text, since the library has no heap.
#[derive(Drop)]
pub struct Text {
    pub n: usize,
    pub bytes: [u8; LONGEST],
}

impl Text {
    // No bytes.
    pub fn empty() -> Text
        ensures { Spells result [] }
    {
        Text {
            n: 0,
            bytes: [0u8; LONGEST],
        }
    }

    // The text with one byte more.
    pub fn push(mut self, byte: u8) -> Text
        requires { self.n + 1 ≤ longest }
        ensures { Grown self (byte ∷ []) 1 result }
    {
        self.bytes[self.n] = byte;
        self.n += 1;
        self
    }

    // The text with a number in decimal at its end.
    pub fn decimal(self, number: usize) -> Text
        requires { self.n + length (Decimal·decimal number) ≤ longest }
        ensures { Grown self (Decimal·decimal number) 20 result }
    {
        if number < 10 {
            return self.push(b'0' + number as u8);
        }
        self.decimal(number / 10).push(b'0' + (number % 10) as u8)
    }

    // The same with a number of 16 bits.
    pub fn short_decimal(self, number: u16) -> Text
        requires { self.n + 5 ≤ longest }
        ensures { Grown self (Decimal·decimal number) 5 result }
    {
        self.decimal(number as usize)
    }

    // The text with one field more, which is one byte.
    pub fn letter(self, byte: u8) -> Text
        requires { self.n + 2 ≤ longest }
        ensures { Grown self (spaced ((byte ∷ []) ∷ [])) 2 result }
    {
        self.push(b' ').push(byte)
    }

    // The text with one field more, in which there is nothing to say.
    pub fn dash(self) -> Text
        requires { self.n + 2 ≤ longest }
        ensures { Grown self (spaced (Ascii·bytes "-" ∷ [])) 2 result }
    {
        self.letter(b'-')
    }

    // The text with one field more, which is a number.
    pub fn number(self, number: u16) -> Text
        requires { self.n + 6 ≤ longest }
        ensures { Grown self (spaced (Decimal·decimal number ∷ [])) 6 result }
    {
        self.push(b' ').short_decimal(number)
    }

    // The text with one field more, which is a move.
    pub fn moved(self, m: Move) -> Text
        requires { self.n + 18 ≤ longest }
        ensures { Grown self (spaced (move_field m ∷ [])) 18 result }
    {
        let tenant = self.number(m.tenant);
        let old = tenant.push(b':').short_decimal(m.from);
        old.push(separator_of(m.staged)).short_decimal(m.to)
    }

    // Puts the text into lent bytes from an index on, and answers the index after it.
    pub fn put(self, out: &mut [u8], at: usize) -> usize
        requires { (self.n ≤ longest) × (at + self.n ≤ length out.old) }
        ensures { (result ≡ at + self.n) × (out.new ≡ paste out.old at self.bytes self.n) }
    {
        let end = at + self.n;
        out[at..end].copy_from_slice(&self.bytes[..self.n]);
        end
    }
}

// The byte between the nodes of a move, whose last number says whether it is staged.
fn separator_of(staged: u16) -> u8
    ensures { result ≡ separator staged }
{
    if staged == 0 { b'>' } else { b'=' }
}
