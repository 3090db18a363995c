// The text of the tidied codelist.
ghost use Rattle.std.specs.Prelude.{◌≡◌, take};
ghost use Rattle.codelist.specs.Codelist.{WellFormed};
ghost use Rattle.codelist.specs.Text.{first_text, line_text};
ghost use Rattle.codelist.specs.Write.{plain, text_line_of, field_of, text_of};
ghost use Rattle.writer.specs.Lent.{put_text};
ghost use Rattle.liveness.specs.Tidied.{tidied};
ghost use Rattle.liveness.specs.Views.{FewDigits};

use super::{marks, renumbering};
use codelist::{Codelist, Op, Year};

// As many bytes as the longest text of a codelist has.
type Text = writer::Text<1266>;

// The first line (02, request 9): the year is named only for 2014.
#[tactic(auto, using(crate::proofs::Lines::of_byte, crate::proofs::Lines::of_year))]
fn first_line(text: &mut Text, year: Year, factors: u8)
    ensures { text.new ≡ put_text text.old (first_text (plain factors) (field_of year)) }
{
    match year {
        Year::Y2016 => text.line_of_one(b"factors\t", u64::from(factors)),
        Year::Y2014 => text.line_of_two(b"factors\t", u64::from(factors), 2014),
    }
}

// An operation's line.
#[tactic(auto, using(crate::proofs::Lines::of_byte, crate::proofs::Lines::of_constant))]
fn op_line(text: &mut Text, op: Op)
    requires { FewDigits op }
    ensures { text.new ≡ put_text text.old (line_text (text_line_of op)) }
{
    match op {
        Op::Add(i, j) => text.line_of_two(b"add\t", u64::from(i), u64::from(j)),
        Op::Mul(i, j) => text.line_of_two(b"mul\t", u64::from(i), u64::from(j)),
        Op::AddC(i, c) => text.line_of_signed(b"addc\t", u64::from(i), c),
        Op::MulC(i, c) => text.line_of_signed(b"mulc\t", u64::from(i), c),
        Op::Pow(i, m) => text.line_of_two(b"pow\t", u64::from(i), u64::from(m)),
        Op::Inv(i) => text.line_of_one(b"inv\t", u64::from(i)),
    }
}

// The text of the tidied codelist: its first line, and the lines of the used operations with their new numbers.
pub(crate) fn tidied_text(c: Codelist) -> Text
    requires { WellFormed c }
    ensures { take result.at result.bytes ≡ text_of (tidied c) }
{
    let used = marks::used_lines(&c);
    let numbers = renumbering::numbers(&used, c.factors);
    let n = usize::from(c.factors);
    let mut text = Text::new();
    first_line(&mut text, c.year, c.factors);
    // By the operation, whose line n + k + 1 is asked for in both tables.
    for k in 0..usize::from(c.count) {
        if used[n + k + 1] {
            op_line(&mut text, renumbering::renumbered(&numbers, c.ops[k].op));
        }
    }
    text
}
