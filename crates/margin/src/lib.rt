// How near the edge a class is (02, request 14): the smallest widening of one range's high end, 1 to 100 units, after which plain rating is refused or the
// value's high end passes a ceiling.
#![tactic(auto)]

ghost use Rattle.std.specs.Prelude.{◌≡◌};
ghost use Rattle.margin.specs.declared.Refusal.TheVariants.{Rate};
ghost use Rattle.margin.specs.Edge.{number_of, place_of, is_ceiling, edge_for, in_full};

use engine::Engine;
use range::Range;

mod search; // search.rt: the least widening of a factor, by halving, and the first factor of the least
mod widen; // widen.rt: a range widened, and what rating then says

// The limit, in units, either sign.
const LIMIT: i64 = 2_000_000_000;

// Why no edge is looked for.
#[derive(Clone, Copy, PartialEq, Eq)]
pub enum Refusal {
    // 8 to 12: the ranges are refused by themselves
    Rate(rules::Refusal),
    // 22: the ceiling is beyond the limit, or below the value's high end
    Ceiling,
}

// A range's high end widened.
#[derive(Clone, Copy, PartialEq, Eq)]
pub struct Widening {
    // the factor, counted from 1
    pub factor: u8,
    // by how many units its high end is widened
    pub units: u8,
}

impl From<rules::Refusal> for Refusal {
    ghost from_gives = { λ r e. e ≡ Rate r };

    fn from(r: rules::Refusal) -> Refusal {
        Refusal::Rate(r)
    }
}

impl Refusal {
    // The refusal's number.
    pub fn number(self) -> u8
        ensures { result ≡ number_of self }
    {
        match self {
            Refusal::Rate(r) => engine::Refusal::Rate(r).number(),
            Refusal::Ceiling => 22,
        }
    }

    // The refusal's place.
    pub fn place(self) -> u64
        ensures { result ≡ place_of self }
    {
        match self {
            Refusal::Rate(r) => engine::Refusal::Rate(r).place(),
            Refusal::Ceiling => 0,
        }
    }
}

// Whether a ceiling is within the limit, and not below the value.
fn is_ceiling(value: Range, ceiling: i64) -> bool
    ensures { result ≡ is_ceiling value ceiling }
{
    (-LIMIT..=LIMIT).contains(&ceiling) && value.high <= ceiling
}

// The nearest edge, or none by 100 units or fewer: the ranges' own refusals, then 22, then the search.
pub fn nearest(engine: Engine, ranges: &[i64], ceiling: i64) -> Result<Option<Widening>, Refusal>
    ensures { in_full result ≡ edge_for engine ranges.now ceiling }
{
    let c = engine.codelist;
    let limits = bounds::rate(c, ranges)?;
    if !is_ceiling(limits.value, ceiling) {
        return Err(Refusal::Ceiling);
    }
    Ok(search::first(c, ranges, ceiling))
}
