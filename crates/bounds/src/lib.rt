// Rating: the rules of 01 for the lines of a codelist, over the ranges of its factors.
// The lines stand in a table of plain numbers: a row reads those that it refers to where they lie, and writes its own. A line is refused where
// one of its ranges passes the limit, so that whatever a later line refers to is valid, and its sums and products need not test their operands.
#![tactic(auto)]

ghost use Rattle.std.specs.Prelude.{◌≡◌};
ghost use Rattle.encoding.specs.Decode.{lent_codelist};
ghost use Rattle.rules.specs.Rate.{pairs, first_bad, in_full, rate_of};
ghost use Rattle.bounds.specs.FirstBad.{or_none};

use codelist::Codelist;
use rules::{Limits, Refusal};

mod lent; // lent.rt: the run over a codelist in lent bytes
mod rows; // rows.rt: the rows of 01's table, a function each
mod run; // run.rt: the run over the lines of a codelist, and the refusals of rating
mod slopes; // slopes.rt: the slopes of a row, for the members of its set
mod spectrum; // spectrum.rt: sets of factors, and spectra over them
mod table; // table.rt: the table of lines
mod valid; // valid.rt: stand-ins for `Range`'s sum, product and hull, of ranges that are known to be valid

// Rates the ranges `xs`, two numbers for each factor. A codelist that can't be rated counts as none, as an empty engine's:
// one without factors or operations, with too many of them, or with an operation that is not well formed.
pub fn rate(c: Codelist, xs: &[i64]) -> Result<Limits, Refusal>
    ensures { in_full result ≡ rate_of c xs.now }
{
    run::answer(c, xs)
}

// Rates the ranges `xs` against the codelist that lent bytes hold (02, request 10), which is read where it lies. Bytes that hold none count as an empty
// engine.
pub fn rate_at(state: &[u8], xs: &[i64]) -> Result<Limits, Refusal>
    ensures { in_full result ≡ rate_of (lent_codelist state.now) xs.now }
{
    lent::answer(state, xs)
}

// Refusal 9: the lowest factor, counted from 1, whose range is not valid. A number after the last pair is not looked at.
pub fn first_bad(xs: &[i64]) -> Option<usize>
    ensures { result ≡ or_none (first_bad 1 (pairs xs.now)) }
{
    // By the factor, which is the answer; a number behind the last pair is none of a range.
    for a in 0..xs.len() / 2 {
        if !run::range_at(xs, a).valid() {
            return Some(a + 1);
        }
    }
    None
}
