// The text side of the program `cut` (02, request 6): its first line, which has the depth. What follows it is read and printed as by `rate`.
#![tactic(auto)]

ghost use Rattle.std.specs.Prelude.{◌≡◌, ◌==◌, position};
ghost use Rattle.std.specs.Bool.{then_some};
ghost use Rattle.writer.specs.Lent.{put_text};
ghost use Rattle.text.specs.InFull.{in_full};
ghost use Rattle.text.specs.Answer.{written};
ghost use Rattle.bisection.specs.Cut.{is_depth};
ghost use Rattle.cut_text.specs.Input.{depth_in, after_first};
ghost use Rattle.cut_text.specs.Answer.{answer_of};
ghost use Rattle.cut_text.specs.Views.{refused_text, told};
ghost use Rattle.cut_text.specs.declared.Refusal.TheVariants.{Load, Cut};

use engine::Engine;
use rules::Limits;
use text::Text;

// The most bytes of input.
const MOST_INPUT: usize = 8192;

const LINE_END: u8 = 10;

// Why there are no limits.
// `fleet_text` has one with other cases: a type for both would have cases that neither gives.
#[derive(Clone, Copy)]
enum Refusal {
    // of the sheet
    Load(engine::Refusal),
    // of the class and its depth
    Cut(bisection::Refusal),
}

impl From<engine::Refusal> for Refusal {
    ghost from_gives = { λ why r. r ≡ Load why };

    fn from(why: engine::Refusal) -> Refusal {
        Refusal::Load(why)
    }
}

impl From<bisection::Refusal> for Refusal {
    ghost from_gives = { λ why r. r ≡ Cut why };

    fn from(why: bisection::Refusal) -> Refusal {
        Refusal::Cut(why)
    }
}

// The depth that the first line gives: none where it is not 0 to 6, or where the line has another form.
fn depth_in(s: &[u8]) -> Option<i64>
    ensures { result ≡ then_some (is_depth (depth_in s.now)) (depth_in s.now) }
{
    let (numeral, _) = codelist::field(s.strip_prefix(b"depth\t")?, LINE_END)?;
    let depth = numeral.value();
    bisection::is_depth(depth).then_some(depth)
}

// Where the first line ends.
fn line_end(s: &[u8]) -> Option<usize>
    ensures { result ≡ position (λ b. b == 10) s.now }
{
    s.iter().position(|b| *b == LINE_END)
}

// What follows the first line.
fn after_first(s: &[u8]) -> &[u8]
    ensures { result.now ≡ after_first s.now }
{
    match line_end(s) {
        Some(at) => &s[at + 1..],
        None => b"",
    }
}

// The factor count and the limits of the last of so many calls, at least one: each gives the same.
fn cut(input: &[u8], times: u64) -> Result<(u8, Limits), Refusal>
    ensures { told result ≡ answer_of input.now }
{
    if MOST_INPUT < input.len() {
        return Err(Refusal::Load(engine::Refusal::Load(codelist::Refusal::TooLong)));
    }
    let (sheet, boxes) = text::parted(after_first(input), b"box");
    let mut engine = Engine::new();
    engine.load(sheet)?;
    let depth = depth_in(input).ok_or(bisection::Refusal::Depth)?;
    let boxes = text::box_lines(boxes).ok_or(bisection::Refusal::Rate(rules::Refusal::RangeCount))?;
    let mut answer = bisection::rate(engine, boxes.as_slice(), depth);
    for _ in 1..times {
        answer = bisection::rate(engine, boxes.as_slice(), depth);
    }
    Ok((engine.codelist.factors, answer?))
}

// The text of a refusal.
fn refused(out: &mut Text, why: Refusal)
    ensures { out.new ≡ put_text out.old (refused_text why) }
{
    match why {
        Refusal::Load(why) => text::printing::refusal(out, why),
        Refusal::Cut(why) => out.refusal(u64::from(why.number()), why.place()),
    }
}

/// What the program prints for its input.
pub fn answer(input: &[u8]) -> Text
    ensures { in_full result ≡ written (answer_of input.now) }
{
    answer_after(input, 1)
}

/// The same, after so many calls: for measuring them.
pub fn answer_after(input: &[u8], times: u64) -> Text
    ensures { in_full result ≡ written (answer_of input.now) }
{
    let mut out = Text::new();
    match cut(input, times) {
        Ok((n, limits)) => text::printing::limits(&mut out, n, limits),
        Err(why) => refused(&mut out, why),
    }
    out
}
