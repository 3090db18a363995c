// Tidied sheets (02, request 1): the same sheet without the operation lines that its last line does not use.
#![tactic(auto)]

ghost use Rattle.std.specs.Prelude.{◌≡◌, length};
ghost use Rattle.codelist.specs.Codelist.{WellFormed};
ghost use Rattle.codelist.specs.Write.{text_of};
ghost use Rattle.liveness.specs.Tidied.{tidied};
ghost use Rattle.liveness.specs.Tidy.{number_of, place_of, fitted, buffer_after, tidy_of, buffer_of, answered, in_full};
ghost use Rattle.liveness.specs.declared.Refusal.TheVariants.{Load};

use codelist::Codelist;
use writer::Text;

mod marks; // marks.rt: which lines are used
mod renumbering; // renumbering.rt: the new numbers
mod writing; // writing.rt: the text

// Why nothing is written.
#[derive(Clone, Copy, PartialEq, Eq)]
pub enum Refusal {
    // 1 to 7, 15 and 17: the sheet is refused.
    Load(codelist::Refusal),
    // 13: the buffer is shorter than the tidied sheet.
    Short,
}

impl From<codelist::Refusal> for Refusal {
    ghost from_gives = { λ r e. e ≡ Load r };

    fn from(r: codelist::Refusal) -> Self {
        Self::Load(r)
    }
}

impl Refusal {
    // The refusal's number.
    pub fn number(self) -> u8
        ensures { result ≡ number_of self }
    {
        match self {
            Refusal::Load(r) => r.number(),
            Refusal::Short => 13,
        }
    }

    // The refusal's place.
    pub fn place(self) -> u64
        ensures { result ≡ place_of self }
    {
        match self {
            Refusal::Load(r) => r.place(),
            Refusal::Short => 0,
        }
    }
}

// The text of the tidied codelist in the buffer, where it has room. It is put together apart, so that nothing of the buffer is touched before its
// room is known.
fn fit(buffer: &mut [u8], c: Codelist) -> Result<usize, Refusal>
    requires { WellFormed c }
    ensures value { in_full result ≡ fitted (text_of (tidied c)) (length buffer.old) }
    ensures buffer_after { buffer.new ≡ buffer_after (in_full result) (text_of (tidied c)) buffer.old }
{
    let text = writing::tidied_text(c);
    let bytes = text.as_slice();
    if buffer.len() < bytes.len() {
        return Err(Refusal::Short);
    }
    buffer[..bytes.len()].copy_from_slice(bytes);
    Ok(bytes.len())
}

// Tidying (02, request 1): the sheet without dead lines, put into the buffer, and how many bytes it has; or a refusal, and the buffer as it was.
#[tactic(auto, unfolding(crate::specs::Tidy::tidy_of, crate::specs::Tidy::buffer_of))]
pub fn tidy(bytes: &[u8], buffer: &mut [u8]) -> Result<usize, Refusal>
    ensures value { in_full result ≡ tidy_of bytes.now (length buffer.old) }
    ensures buffer_after { buffer.new ≡ buffer_of bytes.now buffer.old }
{
    fit(buffer, codelist::load(bytes)?)
}

// The program's output for the bytes of a sheet: the tidied sheet, or the refusal.
#[tactic(auto, using(crate::proofs::Printed::text_inside))]
pub fn answer(sheet: &[u8]) -> Text<4096>
    ensures { result ≡ answered sheet.now }
{
    let mut text = Text::new();
    let mut bytes = [0u8; 4096];
    match tidy(sheet, &mut bytes) {
        Ok(len) => text.word(&bytes[..len]),
        Err(why) => text.refusal(u64::from(why.number()), why.place()),
    }
    text
}
