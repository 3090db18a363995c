// The text side of the program `rate`: where the sheet ends, the box lines, and what is printed. What is printed is put into a text, piece after piece.
#![tactic(auto)]

ghost use Rattle.std.specs.Prelude.{◌≡◌, ◌<◌, ◌≤◌, true, [], ◌∷◌, ◌++◌, length, MatchOption};
ghost use Rattle.text.specs.Input.{is_line, sheet_length, sheet_of, after_line, box_lines};
ghost use Rattle.text.specs.InFull.{in_full, text_of};
ghost use Rattle.text.specs.Answer.{answer_of, written};
ghost use Rattle.text.specs.Boxes.{numbers_of};

pub mod lent; // lent.rt: what is printed, put into lent bytes of any length
pub mod printing; // printing.rt: the same, put into a `Text`

use engine::{Engine, Refusal};
pub use lent::{limits, range_fields, refusal};
use rules::Limits;
use std::marker::Model;

// The most bytes of input.
const MOST_INPUT: usize = 8192;

/// What a program prints: no output is longer.
pub type Text = writer::Text<1024>;

// Whether a text begins with the line w.
fn is_line(s: &[u8], w: &[u8]) -> bool
    ensures { result ≡ is_line w.now s.now }
{
    s.starts_with(w) && s[w.len()..].starts_with(b"\n")
}

/// Where the sheet ends: at the first line w, or with the text. A line is looked for only where one starts.
pub fn sheet_end(s: &[u8], w: &[u8]) -> usize
    ensures { result ≡ sheet_length w.now true s.now }
{
    let mut start = true;
    for (at, &b) in s.iter().enumerate() {
        if start && is_line(&s[at..], w) {
            return at;
        }
        start = b == b'\n';
    }
    s.len()
}

/// The sheet before the first line w, and what follows that line: nothing where there is none.
pub fn parted<'a>(s: &'a [u8], w: &[u8]) -> (&'a [u8], &'a [u8])
    ensures sheet { result.0.now ≡ sheet_of w.now s.now }
    ensures rest { result.1.now ≡ after_line w.now s.now }
{
    let (sheet, rest) = s.split_at(sheet_end(s, w));
    (sheet, rest.get(w.len() + 1..).unwrap_or(b""))
}

/// The numbers of the box lines, two for each: at most sixteen.
// An array with its count, since no library here allocates. Zeros stand behind the numbers, so that these tell the fields, which a copy needs.
#[derive(Clone, Copy)]
pub struct Boxes {
    ends: [i64; 16],
    count: usize,
}

// Clauses see the numbers.
impl Model for Boxes {
    ghost use Rattle.std.specs.Prelude.{List, ℤ, length, take};
    ghost use Rattle.text.specs.Boxes.{sixteen, Fits};

    ghost Value = { List ℤ };

    ghost view = { λ b. take b.count b.ends };

    ghost invariant = { λ b. Fits b.ends b.count };

    ghost inverse = { λ xs. record { ends = sixteen xs; count = length xs } };

    ghost inverse_ok = { λ b h i. record { ends = h.zeros i; count = h.whole i } };
}

impl Boxes {
    fn new() -> Self
        ensures { result ≡ [] }
    {
        Boxes {
            ends: [0; 16],
            count: 0,
        }
    }

    // One number more, where there is room.
    fn push(&mut self, x: i64) -> Option<()>
        ensures { MatchOption result (length self.old ≡ 16) (λ _. (length self.old < 16) × (self.new ≡ self.old ++ (x ∷ []))) }
    {
        if self.count == 16 {
            return None;
        }
        self.ends[self.count] = x;
        self.count += 1;
        Some(())
    }

    pub fn as_slice(&self) -> &[i64]
        ensures value { result.now ≡ self.now }
        ensures few { length result.now ≤ 16 }
    {
        &self.ends[..self.count]
    }
}

/// The numbers of the box lines of a text: none where a line has another form, or where there are more than eight.
pub fn box_lines(s: &[u8]) -> Option<Boxes>
    ensures { numbers_of result ≡ box_lines 8 [] s.now }
{
    let mut boxes = Boxes::new();
    let mut rest = s;
    while !rest.is_empty() {
        let ((low, high), t) = codelist::pair(rest)?;
        boxes.push(low.value())?;
        boxes.push(high.value())?;
        rest = t;
    }
    Some(boxes)
}

// The factor count and the limits of the last of so many ratings, at least one: each gives the same.
fn rated(input: &[u8], times: u64) -> Result<(u8, Limits), Refusal>
    ensures { text_of result ≡ answer_of input.now }
{
    if MOST_INPUT < input.len() {
        return Err(Refusal::Load(codelist::Refusal::TooLong));
    }
    let (sheet, rest) = parted(input, b"box");
    let mut engine = Engine::new();
    engine.load(sheet)?;
    let boxes = box_lines(rest).ok_or(Refusal::Rate(rules::Refusal::RangeCount))?;
    let mut rating = engine.rate(boxes.as_slice());
    // As in the texts of cuts and pages: a rating is a method of an engine by value here, a cut a function, a page of two forms.
    for _ in 1..times {
        rating = engine.rate(boxes.as_slice());
    }
    Ok((engine.codelist.factors, rating?))
}

/// What the program prints for its input.
pub fn answer(input: &[u8]) -> Text
    ensures { in_full result ≡ written (answer_of input.now) }
{
    answer_after(input, 1)
}

/// The same, after so many ratings: for measuring them.
pub fn answer_after(input: &[u8], times: u64) -> Text
    ensures { in_full result ≡ written (answer_of input.now) }
{
    let mut out = Text::new();
    match rated(input, times) {
        Ok((n, l)) => printing::limits(&mut out, n, l),
        Err(why) => printing::refusal(&mut out, why),
    }
    out
}
