// The lines of the text (01, "The sheet"): the words that they begin with, the operation lines, and the first line. Each reader gives what
// stands at the front of the text, with the rest of it.
ghost use Rattle.std.specs.Prelude.{◌≡◌};
ghost use Rattle.codelist.specs.Read.{literal, named, keyword, operands, operation_line, first_fields, first_line, read_of};
ghost use Rattle.codelist.specs.Views.{of_literal, of_line, of_first};

use super::{LINE_END, Numeral, field, pair};

// The word that an operation line begins with.
// The word alone, before its numerals; `Line` has these as written, and `Op` the numbers of a line that keeps the rules.
#[derive(Clone, Copy, PartialEq, Eq)]
pub(crate) enum Word {
    Add,
    Mul,
    AddC,
    MulC,
    Pow,
    Inv,
}

// An operation line as it is written.
#[derive(Clone, Copy)]
pub(crate) enum Line {
    Add(Numeral, Numeral),
    Mul(Numeral, Numeral),
    AddC(Numeral, Numeral),
    MulC(Numeral, Numeral),
    Pow(Numeral, Numeral),
    Inv(Numeral),
}

// The first line as it is written: its n, and the numeral of a year where it has a third field (02, request 9).
#[derive(Clone, Copy)]
pub(crate) struct FirstLine {
    pub factors: Numeral,
    pub year: Option<Numeral>,
}

// The bytes of w: `strip_prefix`, said in the words of specs/.
fn literal<'a>(s: &'a [u8], w: &[u8]) -> Option<&'a [u8]>
    ensures { of_literal result ≡ literal w.now s.now }
{
    s.strip_prefix(w)
}

// The word `name`, written w.
fn named<'a>(s: &'a [u8], w: &[u8], name: Word) -> Option<(Word, &'a [u8])>
    ensures { read_of result ≡ named name w.now s.now }
{
    Some((name, literal(s, w)?))
}

// The word of an operation line, with the tab after it: no two of them begin the same text.
fn keyword(s: &[u8]) -> Option<(Word, &[u8])>
    ensures { read_of result ≡ keyword s.now }
{
    named(s, b"add\t", Word::Add)
        .or_else(|| named(s, b"mul\t", Word::Mul))
        .or_else(|| named(s, b"addc\t", Word::AddC))
        .or_else(|| named(s, b"mulc\t", Word::MulC))
        .or_else(|| named(s, b"pow\t", Word::Pow))
        .or_else(|| named(s, b"inv\t", Word::Inv))
}

// What follows the word of an operation line: two numerals, or one after inv.
fn operands(s: &[u8], word: Word) -> Option<(Line, &[u8])>
    ensures { of_line result ≡ operands word s.now }
{
    if word == Word::Inv {
        let (i, rest) = field(s, LINE_END)?;
        return Some((Line::Inv(i), rest));
    }
    let ((i, x), rest) = pair(s)?;
    let line = match word {
        Word::Add => Line::Add(i, x),
        Word::Mul => Line::Mul(i, x),
        Word::AddC => Line::AddC(i, x),
        Word::MulC => Line::MulC(i, x),
        Word::Pow => Line::Pow(i, x),
        // read above: no line `inv` comes here
        Word::Inv => Line::Inv(i),
    };
    Some((line, rest))
}

// An operation line of the form.
pub(crate) fn operation_line(s: &[u8]) -> Option<(Line, &[u8])>
    ensures { of_line result ≡ operation_line s.now }
{
    let (word, rest) = keyword(s)?;
    operands(rest, word)
}

// What follows the word of the first line: n alone, or n and the year.
fn first_fields(s: &[u8]) -> Option<(FirstLine, &[u8])>
    ensures { of_first result ≡ first_fields s.now }
{
    if let Some((factors, rest)) = field(s, LINE_END) {
        let line = FirstLine {
            factors,
            year: None,
        };
        return Some((line, rest));
    }
    let ((factors, year), rest) = pair(s)?;
    let line = FirstLine {
        factors,
        year: Some(year),
    };
    Some((line, rest))
}

// The first line of the form.
pub(crate) fn first_line(s: &[u8]) -> Option<(FirstLine, &[u8])>
    ensures { of_first result ≡ first_line s.now }
{
    first_fields(literal(s, b"factors\t")?)
}
