// The codelist (01's sheet): bytes become a codelist, or one refusal with its place.
#![tactic(auto)]

ghost use Rattle.std.specs.Prelude.{◌≡◌};
ghost use Rattle.codelist.specs.Codelist.{well_formed_op, ratable};
ghost use Rattle.codelist.specs.Conditions.{is_between};
ghost use Rattle.codelist.specs.Read.{begins_with, read_of, field, pair};
ghost use Rattle.codelist.specs.Load.{number_of, place_of, empty, saturated, load_of, in_full};

mod lines; // lines.rt: the words, the operation lines and the first line of a text
mod loading; // loading.rt: the year, the conditions on a line, its operation, and the operation lines one after another
pub mod numerals; // numerals.rt: bytes, digits and numerals of a text
mod well_formed; // well_formed.rt: the references and constants of an operation

use well_formed::{is_constant, is_earlier};

// 01, "What the engine takes and gives": the bytes of a text, the lines of a codelist, the factors, and the limit on constants in units.
const MOST_BYTES: usize = 4096;

const MOST_LINES: u8 = 64;

const MOST_FACTORS: u64 = 8;

const LIMIT: u64 = 2_000_000_000;

// The bytes that end a numeral's field.
const TAB: u8 = b'\t';

const LINE_END: u8 = b'\n';

// An operation. A reference is the number of a codelist line, from 1; a constant is in units.
#[derive(Clone, Copy, PartialEq, Eq)]
pub enum Op {
    Add(u8, u8),
    Mul(u8, u8),
    AddC(u8, i64),
    MulC(u8, i64),
    Pow(u8, u8),
    Inv(u8),
}

// An element of the array of operations. A struct, since the definitions of specs/ read its `op`.
#[derive(Clone, Copy)]
pub struct Entry {
    pub op: Op,
}

// The year of the rules that a codelist is rated by (02, request 9): "2016, or absent, means the rules so far; 2014 means source document 001,
// Table 2". An enum, so that no codelist has another one.
#[derive(Clone, Copy, PartialEq, Eq)]
pub enum Year {
    Y2016,
    Y2014,
}

// Codelist lines 1 to `factors` are the factors, and the next `count` ones are the operations, from the front of `ops`. Every
// further entry is `Inv(0)`, which is no operation of a codelist. An array with its count, since no library here allocates.
#[derive(Clone, Copy)]
pub struct Codelist {
    pub factors: u8,
    pub count: u8,
    pub year: Year,
    pub ops: [Entry; 64],
}

impl Codelist {
    // The codelist of no text: no factors, no operations, and the rules so far.
    pub fn empty() -> Self
        ensures { result ≡ empty }
    {
        Self {
            factors: 0,
            count: 0,
            year: Year::Y2016,
            ops: [Entry { op: Op::Inv(0) }; 64],
        }
    }
}

// Why a text is refused: 01's refusals 1 to 7, and 15 and 17 of 02. The number held is that of the text line, from 1.
#[derive(Clone, Copy, PartialEq, Eq)]
pub enum Refusal {
    // 1: more than 4,096 bytes.
    TooLong,
    // 2: a text line that is not of its form, or none.
    Malformed(u64),
    // 3: not 1 to 8 factors.
    FactorCount,
    // 17: a year that is neither 2016 nor 2014.
    UnknownYear,
    // 4: a codelist line beyond the 64th.
    TooManyLines(u64),
    // 4: no operation line.
    NoOperation,
    // 5: a reference that is not an earlier line.
    Reference(u64),
    // 6: an exponent that is not 2 to 8.
    Exponent(u64),
    // 7: a constant beyond the limit.
    Constant(u64),
    // 15: a multiplication by the constant 0.
    ZeroMultiplier(u64),
}

impl Refusal {
    // 01's number of a refusal.
    pub fn number(self) -> u8
        ensures { result ≡ number_of self }
    {
        match self {
            Refusal::TooLong => 1,
            Refusal::Malformed(_) => 2,
            Refusal::FactorCount => 3,
            Refusal::UnknownYear => 17,
            Refusal::TooManyLines(_) | Refusal::NoOperation => 4,
            Refusal::Reference(_) => 5,
            Refusal::Exponent(_) => 6,
            Refusal::Constant(_) => 7,
            Refusal::ZeroMultiplier(_) => 15,
        }
    }

    // 01's place of a refusal.
    pub fn place(self) -> u64
        ensures { result ≡ place_of self }
    {
        match self {
            Refusal::TooLong => 0,
            Refusal::FactorCount | Refusal::UnknownYear | Refusal::NoOperation => 1,
            Refusal::Malformed(line)
            | Refusal::TooManyLines(line)
            | Refusal::Reference(line)
            | Refusal::Exponent(line)
            | Refusal::Constant(line)
            | Refusal::ZeroMultiplier(line) => line,
        }
    }
}

// A numeral as it is written: whether it has a minus sign, and the number that its digits write.
// The sign is part of the number, and no flag beside it.
#[derive(Clone, Copy, PartialEq, Eq)]
pub struct Numeral {
    pub negative: bool,
    pub magnitude: u64,
}

impl Numeral {
    // The numeral's value. A magnitude above the greatest one counts as that: no text has it.
    pub fn value(self) -> i64
        ensures { result ≡ saturated self }
    {
        let x = i64::try_from(self.magnitude).unwrap_or(i64::MAX);
        if self.negative { -x } else { x }
    }

    // low ≤ the value ≤ high, for bounds that are not negative.
    pub(crate) fn is_between(self, low: u64, high: u64) -> bool
        ensures { result ≡ is_between low high self }
    {
        !self.negative && (low..=high).contains(&self.magnitude)
    }
}

// A numeral and the byte `end` after it, at the front of the text.
pub fn field(s: &[u8], end: u8) -> Option<(Numeral, &[u8])>
    ensures { read_of result ≡ field end s.now }
{
    let (w, t) = numerals::numeral(s)?;
    let (b, rest) = t.split_first()?;
    if *b == end { Some((w, rest)) } else { None }
}

// Two numerals, parted by a tab, and the line's end, at the front of the text.
pub fn pair(s: &[u8]) -> Option<((Numeral, Numeral), &[u8])>
    ensures { read_of result ≡ pair s.now }
{
    let (i, t) = field(s, TAB)?;
    let (x, rest) = field(t, LINE_END)?;
    Some(((i, x), rest))
}

// Whether a text begins with the bytes w.
// Public: it is the library's `starts_with` in the words of the specs.
pub fn begins_with(s: &[u8], w: &[u8]) -> bool
    ensures { result ≡ begins_with w.now s.now }
{
    s.starts_with(w)
}

// Loading (01, "The sheet" and refusals 1 to 7; 02's refusals 15 and 17): the whole codelist, or one refusal.
pub fn load(bytes: &[u8]) -> Result<Codelist, Refusal>
    ensures { in_full result ≡ load_of bytes.now }
{
    if MOST_BYTES < bytes.len() {
        return Err(Refusal::TooLong);
    }
    let (first, rest) = lines::first_line(bytes).ok_or(Refusal::Malformed(1))?;
    if !first.factors.is_between(1, MOST_FACTORS) {
        return Err(Refusal::FactorCount);
    }
    let year = loading::year_of(first.year).ok_or(Refusal::UnknownYear)?;
    loading::operation_lines(rest, year, first.factors.magnitude as u8)
}

// Whether an operation with `earlier` codelist lines before it is well formed.
pub fn is_op_well_formed(earlier: u64, op: Op) -> bool
    ensures { result ≡ well_formed_op earlier op }
{
    // `&` and not `&&`: each rating tests every operation, and with branches the test of a long codelist took a quarter longer
    match op {
        Op::Add(i, j) | Op::Mul(i, j) => is_earlier(earlier, i) & is_earlier(earlier, j),
        Op::AddC(i, c) => is_earlier(earlier, i) & is_constant(c),
        Op::MulC(i, c) => is_earlier(earlier, i) & is_constant(c) & (c != 0),
        Op::Pow(i, m) => is_earlier(earlier, i) & (2..=8).contains(&m),
        Op::Inv(i) => is_earlier(earlier, i),
    }
}

// Whether a codelist can be rated: one pass over its operations. Every accepted load leaves one that can; the entries behind the last
// operation are not looked at, since rating never reads them.
pub fn is_ratable(c: Codelist) -> bool
    ensures { result ≡ ratable c }
{
    let n = u64::from(c.factors);
    let count = u64::from(c.count);
    if !((1..=MOST_FACTORS).contains(&n) && 1 <= count && n + count <= u64::from(MOST_LINES)) {
        return false;
    }
    for (k, entry) in c.ops[..usize::from(c.count)].iter().enumerate() {
        if !is_op_well_formed(n + k as u64, entry.op) {
            return false;
        }
    }
    true
}
