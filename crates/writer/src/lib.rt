// Texts put into bytes: each function puts a piece from a place on, gives the place after it, and stops where the bytes end. A `Text` has its own bytes.
#![tactic(auto)]

ghost use Rattle.std.specs.Prelude.{◌≡◌, ◌≤◌, length, take, replicate};
ghost use Rattle.writer.specs.Lent.{lent, put, put_text};
ghost use Rattle.writer.specs.Texts.{natural_text, whole_text, line_of_one, line_of_whole, line_of_two, refused_text};

use std::marker::Model;

// The place stands beside the bytes: these functions are public, and take lent bytes of any length.

/// One byte.
pub fn byte(buffer: &mut [u8], at: usize, b: u8) -> usize
    ensures { lent buffer.new result ≡ put (lent buffer.old at) b }
{
    if at < buffer.len() {
        buffer[at] = b;
        at + 1
    } else {
        at
    }
}

/// The bytes of w.
pub fn word(buffer: &mut [u8], at: usize, w: &[u8]) -> usize
    ensures { lent buffer.new result ≡ put_text (lent buffer.old at) w.now }
{
    let mut to = at;
    for &b in w {
        to = byte(buffer, to, b);
    }
    to
}

/// A number in decimal.
pub fn natural(buffer: &mut [u8], at: usize, number: u64) -> usize
    ensures { lent buffer.new result ≡ put_text (lent buffer.old at) (natural_text number) }
{
    let mut to = at;
    if 10 <= number {
        to = natural(buffer, to, number / 10);
    }
    byte(buffer, to, b'0' + (number % 10) as u8)
}

/// A number with its sign.
pub fn whole(buffer: &mut [u8], at: usize, x: i64) -> usize
    ensures { lent buffer.new result ≡ put_text (lent buffer.old at) (whole_text x) }
{
    let mut to = at;
    if x < 0 {
        to = byte(buffer, to, b'-');
    }
    natural(buffer, to, x.unsigned_abs())
}

/// A line of the word w, with its tab, and a number.
pub fn line_of_one(buffer: &mut [u8], at: usize, w: &[u8], n: u64) -> usize
    ensures { lent buffer.new result ≡ put_text (lent buffer.old at) (line_of_one w.now n) }
{
    let begun = word(buffer, at, w);
    let numbered = natural(buffer, begun, n);
    byte(buffer, numbered, b'\n')
}

// A function for each kind of number: a trait over the two kinds would be longer than the two functions that it saves.
/// The same with a number that has a sign.
pub fn line_of_whole(buffer: &mut [u8], at: usize, w: &[u8], x: i64) -> usize
    ensures { lent buffer.new result ≡ put_text (lent buffer.old at) (line_of_whole w.now x) }
{
    let begun = word(buffer, at, w);
    let numbered = whole(buffer, begun, x);
    byte(buffer, numbered, b'\n')
}

/// A line of the word w, with its tab, and two numbers.
pub fn line_of_two(buffer: &mut [u8], at: usize, w: &[u8], n: u64, m: u64) -> usize
    ensures { lent buffer.new result ≡ put_text (lent buffer.old at) (line_of_two w.now n (natural_text m)) }
{
    let begun = word(buffer, at, w);
    let first = natural(buffer, begun, n);
    let parted = byte(buffer, first, b'\t');
    let second = natural(buffer, parted, m);
    byte(buffer, second, b'\n')
}

/// The same where the second has a sign.
pub fn line_of_signed(buffer: &mut [u8], at: usize, w: &[u8], n: u64, x: i64) -> usize
    ensures { lent buffer.new result ≡ put_text (lent buffer.old at) (line_of_two w.now n (whole_text x)) }
{
    let begun = word(buffer, at, w);
    let first = natural(buffer, begun, n);
    let parted = byte(buffer, first, b'\t');
    let second = whole(buffer, parted, x);
    byte(buffer, second, b'\n')
}

/// A refusal's line.
pub fn refusal(buffer: &mut [u8], at: usize, number: u64, place: u64) -> usize
    ensures { lent buffer.new result ≡ put_text (lent buffer.old at) (refused_text number place) }
{
    line_of_two(buffer, at, b"refused\t", number, place)
}

/// A text of at most `N` bytes, from their front on.
#[derive(Clone, Copy)]
pub struct Text<const N: usize> {
    bytes: [u8; N],
    len: usize,
}

// Clauses see the bytes, and how many of them are written.
impl<const N: usize> Model for Text<N> {
    ghost use Rattle.std.specs.Prelude.{◌≤◌};
    ghost use Rattle.writer.specs.Lent.{Lent, lent};

    ghost Value = { Lent };

    ghost view = { λ t. lent t.bytes t.len };

    ghost invariant = { λ t. t.len ≤ N };

    ghost inverse = { λ v. record { bytes = v.bytes; len = v.at } };
}

// Each puts its piece after what stands there.
impl<const N: usize> Text<N> {
    /// Nothing written yet.
    pub fn new() -> Self
        ensures { result ≡ lent (replicate N 0) 0 }
    {
        Text {
            bytes: [0; N],
            len: 0,
        }
    }

    /// The bytes that are written.
    pub fn as_slice(&self) -> &[u8]
        ensures { result.now ≡ take self.now.at self.now.bytes }
    {
        &self.bytes[..self.len]
    }

    pub fn byte(&mut self, b: u8)
        ensures { self.new ≡ put self.old b }
    {
        self.len = byte(&mut self.bytes, self.len, b);
    }

    pub fn word(&mut self, w: &[u8])
        ensures { self.new ≡ put_text self.old w.now }
    {
        self.len = word(&mut self.bytes, self.len, w);
    }

    pub fn natural(&mut self, number: u64)
        ensures { self.new ≡ put_text self.old (natural_text number) }
    {
        self.len = natural(&mut self.bytes, self.len, number);
    }

    pub fn whole(&mut self, x: i64)
        ensures { self.new ≡ put_text self.old (whole_text x) }
    {
        self.len = whole(&mut self.bytes, self.len, x);
    }

    pub fn line_of_one(&mut self, w: &[u8], n: u64)
        ensures { self.new ≡ put_text self.old (line_of_one w.now n) }
    {
        self.len = line_of_one(&mut self.bytes, self.len, w, n);
    }

    pub fn line_of_whole(&mut self, w: &[u8], x: i64)
        ensures { self.new ≡ put_text self.old (line_of_whole w.now x) }
    {
        self.len = line_of_whole(&mut self.bytes, self.len, w, x);
    }

    pub fn line_of_two(&mut self, w: &[u8], n: u64, m: u64)
        ensures { self.new ≡ put_text self.old (line_of_two w.now n (natural_text m)) }
    {
        self.len = line_of_two(&mut self.bytes, self.len, w, n, m);
    }

    pub fn line_of_signed(&mut self, w: &[u8], n: u64, x: i64)
        ensures { self.new ≡ put_text self.old (line_of_two w.now n (whole_text x)) }
    {
        self.len = line_of_signed(&mut self.bytes, self.len, w, n, x);
    }

    pub fn refusal(&mut self, number: u64, place: u64)
        ensures { self.new ≡ put_text self.old (refused_text number place) }
    {
        self.len = refusal(&mut self.bytes, self.len, number, place);
    }
}
