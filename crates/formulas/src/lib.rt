// Formulas as members write them (02, request 12): a text and a factor count become a sheet.
#![tactic(auto)]

ghost use Rattle.std.specs.Prelude.{◌≡◌, ◌≤◌};
ghost use Rattle.formulas.specs.Convert.{count_of};
ghost use Rattle.formulas.specs.InFull.{in_full};
ghost use Rattle.formulas.specs.Load.{number_of, place_of, sheet_for, converted_of, buffer_of};
ghost use Rattle.formulas.specs.Answer.{answer_of, in_bytes};
ghost use Rattle.formulas.specs.Views.{Drafts};

use lines::Sheet;
use writer::Text;

mod printing; // printing.rt: what the program `formula` prints
mod lines; // lines.rt: the lines that a formula becomes
mod reader; // reader.rt: sums, products and atoms

// "at most 1,024 bytes"
const LONGEST: usize = 1024;

// Why a text becomes no sheet.
#[derive(Clone, Copy, PartialEq, Eq)]
pub enum Refusal {
    // 19: it is no formula; the place is that of a byte, from 1.
    Text(u64),
    // 20: constants meet, or there is no operation.
    Constants,
}

impl Refusal {
    // The refusal's number.
    pub fn number(self) -> u8
        ensures { result ≡ number_of self }
    {
        match self {
            Refusal::Text(_) => 19,
            Refusal::Constants => 20,
        }
    }

    // The refusal's place.
    pub fn place(self) -> u64
        ensures { result ≡ place_of self }
    {
        match self {
            Refusal::Text(at) => at,
            Refusal::Constants => 0,
        }
    }
}

// "one outside 1 to 8 counts and is written as 9"
fn count_of(count: u64) -> u64
    ensures { (result ≡ count_of count) × (result ≤ 9) }
{
    match count {
        1..=8 => count,
        _ => 9,
    }
}

// The sheet of a formula, written line by line as the formula is read, as far as there is room.
fn draft(text: &[u8], count: u64) -> Result<Text<4097>, Refusal>
    ensures { Drafts (sheet_for text.now count) result }
{
    if LONGEST < text.len() {
        return Err(Refusal::Text(1025));
    }
    let mut sheet = Sheet::new(count_of(count));
    match reader::formula(text, &mut sheet) {
        Ok(None) => Err(Refusal::Constants),
        Ok(Some(_)) if sheet.lines == 0 => Err(Refusal::Constants),
        Ok(Some(_)) => Ok(sheet.text),
        Err(rest) => Err(Refusal::Text((text.len() - rest.len()) as u64 + 1)),
    }
}

// The sheet of a formula with a factor count, put into `sheet`, and its length; or a refusal, and the buffer as it was. A sheet that is longer than a
// sheet may be stops at 4,097 bytes, so that loading finds it too long.
pub fn convert(text: &[u8], factors: u64, sheet: &mut [u8; 4097]) -> Result<usize, Refusal>
    ensures value { in_full result ≡ converted_of text.now factors }
    ensures sheet_after { sheet.new ≡ buffer_of text.now factors sheet.old }
{
    let draft = draft(text, factors)?;
    let bytes = draft.as_slice();
    sheet[..bytes.len()].copy_from_slice(bytes);
    Ok(bytes.len())
}

// The output of the program `formula` for its input.
pub fn answer(input: &[u8]) -> Text<4097>
    ensures { result ≡ in_bytes (answer_of input.now) }
{
    match printing::count_line(input) {
        Some((count, rest)) => printing::after_first(rest, count),
        None => printing::refused(2, 1),
    }
}
