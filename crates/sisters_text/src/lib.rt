// The text side of the program `sisters` (02, request 7): the line that parts the boats from the class, the boat lines, and what is printed.
#![tactic(auto)]

ghost use Rattle.std.specs.Prelude.{◌≡◌};
ghost use Rattle.text.specs.InFull.{in_full};
ghost use Rattle.text.specs.Answer.{written};
ghost use Rattle.sisters_text.specs.Answer.{answer_of};
ghost use Rattle.sisters_text.specs.Views.{told};

use engine::{Engine, Refusal};
use range::Range;
use text::Text;

mod lines; // lines.rt: the boat lines

// The most bytes of input.
const MOST_INPUT: usize = 8192;

// The difference of the boats that follow the line `boats`, of the class before it.
fn difference(input: &[u8]) -> Result<Range, Refusal>
    ensures { told result ≡ answer_of input.now }
{
    if MOST_INPUT < input.len() {
        return Err(Refusal::Load(codelist::Refusal::TooLong));
    }
    let (class, boats) = text::parted(input, b"boats");
    let (sheet, boxes) = text::parted(class, b"box");
    let mut engine = Engine::new();
    engine.load(sheet)?;
    let boxes = text::box_lines(boxes).ok_or(Refusal::Rate(rules::Refusal::RangeCount))?;
    let n = usize::from(engine.codelist.factors);
    match lines::boat_lines(boats, n) {
        Some(values) => increments::sisters(engine, boxes.as_slice(), &values[..2 * n]),
        // Boats that are not to be had are refused by the call, after what it refuses of the class.
        None => increments::sisters(engine, boxes.as_slice(), &[]),
    }
}

/// What the program prints for its input.
pub fn answer(input: &[u8]) -> Text
    ensures { in_full result ≡ written (answer_of input.now) }
{
    let mut out = Text::new();
    match difference(input) {
        Ok(x) => {
            out.word(b"difference");
            text::printing::range_fields(&mut out, x);
        }
        Err(why) => text::printing::refusal(&mut out, why),
    }
    out
}
