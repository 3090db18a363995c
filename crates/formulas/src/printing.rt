// The text side of the program `formula`: its first line, the text after it, and what is printed.
ghost use Rattle.std.specs.Prelude.{◌≡◌};
ghost use Rattle.codelist.specs.Read.{read_of};
ghost use Rattle.writer.specs.Texts.{refused_text};
ghost use Rattle.formulas.specs.Load.{sheet_for};
ghost use Rattle.formulas.specs.Answer.{count_in, count_line, printed, after_first, in_bytes};

use super::LONGEST;
use codelist::Numeral;
use writer::Text;

// A refusal's line.
pub(crate) fn refused(number: u64, place: u64) -> Text<4097>
    ensures { result ≡ in_bytes (refused_text number place) }
{
    let mut out = Text::new();
    out.refusal(number, place);
    out
}

// The first line's numeral, and what follows the line.
pub(crate) fn count_line(input: &[u8]) -> Option<(Numeral, &[u8])>
    ensures { read_of result ≡ count_line input.now }
{
    codelist::field(input.strip_prefix(b"factors\t")?, b'\n')
}

// What a formula's text becomes.
fn printed(text: &[u8], count: u64) -> Text<4097>
    ensures { result ≡ in_bytes (printed (sheet_for text.now count)) }
{
    match super::draft(text, count) {
        Ok(sheet) => match codelist::load(sheet.as_slice()) {
            Ok(_) => sheet,
            Err(why) => refused(u64::from(why.number()), why.place()),
        },
        Err(why) => refused(u64::from(why.number()), why.place()),
    }
}

// What follows the first line: a text, ended by byte 10. A missing end is 2 at 2, but a text over 1,024 bytes comes first.
// The numbers are 02's: of 2 and 19 there is no refusal's value here. A negative count is as far outside 1 to 8 as 0.
pub(crate) fn after_first(rest: &[u8], count: Numeral) -> Text<4097>
    ensures { result ≡ in_bytes (after_first (count_in count) rest.now) }
{
    match rest.split_last() {
        Some((b'\n', text)) => printed(text, if count.negative { 0 } else { count.magnitude }),
        _ if rest.len() <= LONGEST => refused(2, 2),
        _ => refused(19, 1025),
    }
}
