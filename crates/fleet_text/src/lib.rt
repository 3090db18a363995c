// The text side of the program `fleet` (02, request 3): where the sheet ends, the boat lines, and what is printed.
#![tactic(auto)]

ghost use Rattle.std.specs.Prelude.{◌≡◌};
ghost use Rattle.writer.specs.Lent.{put_text};
ghost use Rattle.text.specs.InFull.{in_full};
ghost use Rattle.text.specs.Answer.{written};
ghost use Rattle.fleet_text.specs.Output.{report_text};
ghost use Rattle.fleet_text.specs.Answer.{answer_of};
ghost use Rattle.fleet_text.specs.Views.{boats_read, boats_from, refused_text, told};
ghost use Rattle.fleet_text.specs.declared.Refusal.TheVariants.{Load, Page};

use boats::Report;
use engine::Engine;
use lines::Boats;
use text::Text;

mod forms; // forms.rt: the page by either form of the list of boats
mod lines; // lines.rt: the boat lines

// The most bytes of input.
const MOST_INPUT: usize = 102_400;

// The form in which the boats are handed over. An enum: a function in its place would have to come with a promise that it makes the page.
#[derive(Clone, Copy)]
pub enum Form {
    Numbers,
    Structs,
}

// Why there is no page.
#[derive(Clone, Copy)]
enum Refusal {
    // of the sheet
    Load(engine::Refusal),
    // of the boats
    Page(boats::Refusal),
}

impl From<engine::Refusal> for Refusal {
    ghost from_gives = { λ why r. r ≡ Load why };

    fn from(why: engine::Refusal) -> Refusal {
        Refusal::Load(why)
    }
}

impl From<boats::Refusal> for Refusal {
    ghost from_gives = { λ why r. r ≡ Page why };

    fn from(why: boats::Refusal) -> Refusal {
        Refusal::Page(why)
    }
}

// The boats of what follows the sheet: none where that is no line `boats` and boat lines.
fn boats_in(rest: &[u8]) -> Option<Boats>
    ensures { boats_read result ≡ boats_from rest.now }
{
    lines::boat_lines(rest.strip_prefix(b"boats\n")?)
}

// How many boats the text has, and their page, made as often as `times` says.
fn page(input: &[u8], form: Form, times: u64) -> Result<(usize, Report), Refusal>
    ensures { told result ≡ answer_of input.now }
{
    let (sheet, rest) = input.split_at(text::sheet_end(input, b"boats"));
    let mut engine = Engine::new();
    engine.load(sheet)?;
    if MOST_INPUT < input.len() {
        return Err(Refusal::Page(boats::Refusal::Boats));
    }
    let list = boats_in(rest).ok_or(boats::Refusal::Boats)?;
    let boats = list.as_slice();
    let report = forms::page_of(engine, boats, form, times)?;
    Ok((boats.len(), report))
}

// The text of a report of so many boats.
fn report(out: &mut Text, count: usize, r: Report)
    ensures { out.new ≡ put_text out.old (report_text count r) }
{
    out.line_of_one(b"boats\t", count as u64);
    out.line_of_one(b"accepted\t", r.accepted);
    out.line_of_one(b"range\t", r.range);
    out.line_of_one(b"divisor\t", r.divisor);
    out.line_of_one(b"limit\t", r.limit);
    out.line_of_whole(b"low\t", r.low);
    out.line_of_whole(b"high\t", r.high);
    out.line_of_one(b"greatest\t", r.greatest);
}

// The text of a refusal.
fn refused(out: &mut Text, why: Refusal)
    ensures { out.new ≡ put_text out.old (refused_text why) }
{
    match why {
        Refusal::Load(why) => text::printing::refusal(out, why),
        Refusal::Page(why) => out.refusal(u64::from(why.number()), why.place()),
    }
}

// What the program prints for its input.
pub fn answer(input: &[u8]) -> Text
    ensures { in_full result ≡ written (answer_of input.now) }
{
    answer_after(input, Form::Structs, 1)
}

// The same by either form of the list, after so many pages: for measuring them.
pub fn answer_after(input: &[u8], form: Form, times: u64) -> Text
    ensures { in_full result ≡ written (answer_of input.now) }
{
    let mut out = Text::new();
    match page(input, form, times) {
        Ok((count, figures)) => report(&mut out, count, figures),
        Err(why) => refused(&mut out, why),
    }
    out
}
