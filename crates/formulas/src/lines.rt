// The lines that a formula becomes, each written as soon as its operands are there.
ghost use Rattle.std.specs.Prelude.{◌≡◌, ◌+◌, ◌^◌, ◌≤◌, ◌<◌, nat_abs};
ghost use Rattle.codelist.specs.Text.{two, line_text, Inv};
ghost use Rattle.codelist.specs.Write.{plain, numeral_of};
ghost use Rattle.formulas.specs.Views.{sign_of, Short, next, with_line, begun, Room, Joined, Raised};

use writer::Text;

// −1, in units.
const MINUS_ONE: i64 = -10_000;

// The four signs between two operands.
#[derive(Clone, Copy)]
pub(crate) enum Sign {
    Plus,
    Minus,
    Times,
    Over,
}

// An operand: a constant in units, or the number of the codelist line that holds it.
#[derive(Clone, Copy)]
pub(crate) enum Operand {
    Fixed(u64),
    Line(u64),
}

// A sheet that is being written: its text so far, its factor count, and how many operation lines it has.
#[derive(Drop)]
pub(crate) struct Sheet {
    pub(crate) text: Text<4097>,
    pub(crate) factors: u64,
    pub(crate) lines: u64,
}

impl Sheet {
    // The first line, which names no year.
    pub(crate) fn new(factors: u64) -> Self
        requires { factors ≤ 9 }
        ensures { result ≡ begun factors }
    {
        let mut text = Text::new();
        text.line_of_one(b"factors\t", factors);
        Self {
            text,
            factors,
            lines: 0,
        }
    }

    // A line's number, once its text is written.
    fn number(&mut self) -> u64
        requires { Room 4000 self.old }
        ensures sheet { self.new ≡ record { text = self.old.text; factors = self.old.factors; lines = self.old.lines + 1 } }
        ensures number { result ≡ next self.old }
    {
        self.lines += 1;
        self.factors + self.lines
    }

    // A line more: the word w with its tab, the reference i, and a reference or another number that is not negative.
    // Each line takes of the `Room`, so that it is no invariant. One method for each kind of number, as `writer` has them.
    fn line(&mut self, w: &[u8], i: u64, j: u64) -> u64
        requires { Room 4000 self.old × (i < 10 ^ 10) × (j < 10 ^ 10) }
        ensures sheet { self.new ≡ with_line self.old (two w.now (plain i) (plain j)) }
        ensures number { result ≡ next self.old }
    {
        self.text.line_of_two(w, i, j);
        self.number()
    }

    // The same with a number that has a sign.
    fn signed_line(&mut self, w: &[u8], i: u64, x: i64) -> u64
        requires { Room 4000 self.old × (i < 10 ^ 10) × (nat_abs x < 10 ^ 10) }
        ensures sheet { self.new ≡ with_line self.old (two w.now (plain i) (numeral_of x)) }
        ensures number { result ≡ next self.old }
    {
        self.text.line_of_signed(w, i, x);
        self.number()
    }

    // The line `inv`.
    fn inverse(&mut self, i: u64) -> u64
        requires { Room 4000 self.old × (i < 10 ^ 10) }
        ensures sheet { self.new ≡ with_line self.old (line_text (Inv (plain i))) }
        ensures number { result ≡ next self.old }
    {
        self.text.line_of_one(b"inv\t", i);
        self.number()
    }

    // An operand with the exponent m; none where constants met.
    pub(crate) fn raised(&mut self, base: Option<Operand>, m: u64) -> Option<Operand>
        requires { Room 3000 self.old × Short base × (m < 10) }
        ensures { Raised self.old base m self.new result }
    {
        match base? {
            Operand::Line(i) => Some(Operand::Line(self.line(b"pow\t", i, m))),
            Operand::Fixed(_) => None,
        }
    }

    // Two operands and the sign between them; none where constants met.
    pub(crate) fn joined(
        &mut self,
        sign: Sign,
        left: Option<Operand>,
        right: Option<Operand>,
    ) -> Option<Operand>
        requires { Room 3000 self.old × Short left × Short right }
        ensures { Joined self.old (sign_of sign) left right self.new result }
    {
        let number = match (left?, sign, right?) {
            (Operand::Line(i), Sign::Plus, Operand::Line(j)) => self.line(b"add\t", i, j),
            (Operand::Line(i), Sign::Minus, Operand::Line(j)) => {
                let negative = self.signed_line(b"mulc\t", j, MINUS_ONE);
                self.line(b"add\t", i, negative)
            }
            (Operand::Line(i), Sign::Times, Operand::Line(j)) => self.line(b"mul\t", i, j),
            (Operand::Line(i), Sign::Over, Operand::Line(j)) => {
                let inverse = self.inverse(j);
                self.line(b"mul\t", i, inverse)
            }
            (Operand::Line(i), Sign::Plus, Operand::Fixed(c))
            | (Operand::Fixed(c), Sign::Plus, Operand::Line(i)) => self.line(b"addc\t", i, c),
            (Operand::Line(i), Sign::Minus, Operand::Fixed(c)) => {
                self.signed_line(b"addc\t", i, -(c as i64))
            }
            (Operand::Line(i), Sign::Times, Operand::Fixed(c))
            | (Operand::Fixed(c), Sign::Times, Operand::Line(i)) => self.line(b"mulc\t", i, c),
            (Operand::Fixed(c), Sign::Minus, Operand::Line(j)) => {
                let negative = self.signed_line(b"mulc\t", j, MINUS_ONE);
                self.line(b"addc\t", negative, c)
            }
            (Operand::Fixed(c), Sign::Over, Operand::Line(j)) => {
                let inverse = self.inverse(j);
                self.line(b"mulc\t", inverse, c)
            }
            (Operand::Fixed(_), _, Operand::Fixed(_)) | (_, Sign::Over, Operand::Fixed(_)) => {
                return None;
            }
        };
        Some(Operand::Line(number))
    }
}
