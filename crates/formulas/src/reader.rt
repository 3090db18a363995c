// The readers of a formula: sums, products and atoms, which call each other in a cycle. Bytes left and depth fall. Each reads the front of a text, and
// gives what it read with the bytes that are left; or the bytes from the one on that can't follow.
ghost use Rattle.std.specs.Prelude.{◌≡◌, ◌+◌, ◌*◌, ◌≤◌, length};
ghost use Rattle.formulas.specs.Views.{Ready, Reads, IsDigit, AreDigits, IsConstant, IsLeaf, IsSign, operands, joined_at, Parses};
ghost use Rattle.formulas.specs.Convert.{reference};
ghost use Rattle.formulas.specs.Read.{atom_at, powered_at, sum_at, ended};
ghost use Rattle.formulas.specs.Grammar.{deepest};

use crate::lines::{Operand, Sheet, Sign};

const DEEPEST: u64 = 16;

// What a reader of operands gives: none where constants met.
type Read<'a> = Result<(Option<Operand>, &'a [u8]), &'a [u8]>;

// What signs join: powers to a product, or products to a sum.
#[derive(Clone, Copy)]
enum Rank {
    Product,
    Sum,
}

// Digits: the number they write, how many they are, and the bytes that are left.
#[derive(Clone, Copy)]
struct Run<'a> {
    value: u64,
    count: u32,
    rest: &'a [u8],
}

// The value of a digit.
fn digit(s: &[u8]) -> Option<(u64, &[u8])>
    ensures { IsDigit s.now result }
{
    let (byte, rest) = s.split_first()?;
    match *byte {
        b'0'..=b'9' => Some((u64::from(*byte - b'0'), rest)),
        _ => None,
    }
}

// At least one digit, and at most so many.
fn digits(s: &[u8], most: u32) -> Result<Run, &[u8]>
    requires { most ≤ 6 }
    ensures { AreDigits s.now most result }
{
    let mut run = Run {
        value: 0,
        count: 0,
        rest: s,
    };
    for count in 0..most {
        let Some((d, rest)) = digit(run.rest) else {
            break;
        };
        run = Run {
            value: run.value * 10 + d,
            count: count + 1,
            rest,
        };
    }
    if run.count == 0 { Err(s) } else { Ok(run) }
}

// "one to six digits and, where a point follows, one to four more", in units
fn constant(s: &[u8]) -> Result<(u64, &[u8]), &[u8]>
    ensures { IsConstant s.now result }
{
    let whole = digits(s, 6)?;
    let Some(decimals) = whole.rest.strip_prefix(b".") else {
        return Ok((whole.value * 10_000, whole.rest));
    };
    let part = digits(decimals, 4)?;
    Ok((
        whole.value * 10_000 + part.value * 10_u64.pow(4 - part.count),
        part.rest,
    ))
}

// "a factor beyond the count is written as reference 0"
fn reference(n: u64, i: u64) -> u64
    ensures { result ≡ reference n i }
{
    if i <= n { i } else { 0 }
}

// A factor or a constant.
fn leaf(s: &[u8], n: u64) -> Result<(Operand, &[u8]), &[u8]>
    ensures { IsLeaf s.now n result }
{
    let Some(number) = s.strip_prefix(b"f") else {
        let (units, rest) = constant(s)?;
        return Ok((Operand::Fixed(units), rest));
    };
    let Some((i, rest)) = digit(number) else {
        return Err(number);
    };
    if i == 0 || i == 9 {
        return Err(number);
    }
    Ok((Operand::Line(reference(n, i)), rest))
}

impl Rank {
    // A sign of this rank.
    fn sign(self, s: &[u8]) -> Option<(Sign, &[u8])>
        ensures { IsSign self s.now result }
    {
        let (byte, rest) = s.split_first()?;
        match (self, *byte) {
            (Rank::Product, b'*') => Some((Sign::Times, rest)),
            (Rank::Product, b'/') => Some((Sign::Over, rest)),
            (Rank::Sum, b'+') => Some((Sign::Plus, rest)),
            (Rank::Sum, b'-') => Some((Sign::Minus, rest)),
            _ => None,
        }
    }
}

// An atom, with room for so many brackets inside one another.
// `Ready` is of the text and the sheet at once; the room falls with each bracket, and so is no part of either.
#[cycle(readers)]
fn atom<'a>(s: &'a [u8], room: u64, sheet: &mut Sheet) -> Read<'a>
    requires { Ready s.now sheet.old }
    ensures { Reads s.now sheet.old (atom_at room) sheet.new result }
{
    match s.strip_prefix(b"(") {
        Some(inside) if 0 < room => {
            let (inner, rest) = joined(inside, room - 1, sheet, Rank::Sum)?;
            match rest.strip_prefix(b")") {
                Some(after) => Ok((inner, after)),
                None => Err(rest),
            }
        }
        _ => {
            let (operand, rest) = leaf(s, sheet.factors)?;
            Ok((Some(operand), rest))
        }
    }
}

// An atom, with one exponent or none.
#[cycle(readers)]
fn powered<'a>(s: &'a [u8], room: u64, sheet: &mut Sheet) -> Read<'a>
    requires { Ready s.now sheet.old }
    ensures { Reads s.now sheet.old (powered_at (atom_at room)) sheet.new result }
{
    let (base, rest) = atom(s, room, sheet)?;
    let Some(exponent) = rest.strip_prefix(b"^") else {
        return Ok((base, rest));
    };
    let Some((m, rest)) = digit(exponent) else {
        return Err(exponent);
    };
    Ok((sheet.raised(base, m), rest))
}

// What signs of a rank join: no closure in its place, since the cycle has to show that bytes or ranks fall.
#[cycle(readers)]
fn part<'a>(s: &'a [u8], room: u64, sheet: &mut Sheet, rank: Rank) -> Read<'a>
    requires { Ready s.now sheet.old }
    ensures { Reads s.now sheet.old (operands rank (atom_at room)) sheet.new result }
{
    match rank {
        Rank::Product => powered(s, room, sheet),
        Rank::Sum => joined(s, room, sheet, Rank::Product),
    }
}

// Operands, joined by signs of a rank from the left.
#[cycle(readers)]
fn joined<'a>(s: &'a [u8], room: u64, sheet: &mut Sheet, rank: Rank) -> Read<'a>
    requires { Ready s.now sheet.old }
    ensures { Reads s.now sheet.old (joined_at rank (atom_at room)) sheet.new result }
{
    let (mut left, mut rest) = part(s, room, sheet, rank)?;
    while let Some((sign, behind)) = rank.sign(rest) {
        let (right, next) = part(behind, room, sheet, rank)?;
        left = sheet.joined(sign, left, right);
        rest = next;
    }
    Ok((left, rest))
}

// The whole formula.
pub(crate) fn formula<'a>(s: &'a [u8], sheet: &mut Sheet) -> Result<Option<Operand>, &'a [u8]>
    requires { (length s.now ≤ 1024) × (sheet.old.factors ≤ 9) × (sheet.old.lines ≡ 0) }
    ensures { Parses (length s.now) sheet.old (ended (length s.now) (sum_at (atom_at deepest) s.now)) sheet.new result }
{
    let (operand, rest) = joined(s, DEEPEST, sheet, Rank::Sum)?;
    if rest.is_empty() {
        Ok(operand)
    } else {
        Err(rest)
    }
}
