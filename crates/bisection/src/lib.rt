// Classes cut finer (02, request 6): a class is cut in two at the middle of its widest range, each half in the same way to a depth of 0 to 6,
// and the limits of the parts are hulled.
#![tactic(auto)]

ghost use Rattle.std.specs.Prelude.{◌≡◌};
ghost use Rattle.bisection.specs.declared.Refusal.TheVariants.{Rate};
ghost use Rattle.bisection.specs.Cut.{number_of, place_of, is_depth, cut_of, in_full};

use engine::Engine;
use rules::Limits;

mod cut; // cut.rt: the widest range, and its middle
mod hull; // hull.rt: the limits of two parts, hulled
mod parts; // parts.rt: the recursion on the two halves

// The deepest cut.
const MOST_DEPTH: i64 = 6;

// Why a class is not rated in parts.
#[derive(Clone, Copy, PartialEq, Eq)]
pub enum Refusal {
    // 16: the depth is not 0 to 6.
    Depth,
    // 8 to 12, as of plain rating
    Rate(rules::Refusal),
}

impl From<rules::Refusal> for Refusal {
    ghost from_gives = { λ r e. e ≡ Rate r };

    fn from(r: rules::Refusal) -> Refusal {
        Refusal::Rate(r)
    }
}

impl Refusal {
    // The refusal's number.
    pub fn number(self) -> u8
        ensures { result ≡ number_of self }
    {
        match self {
            Refusal::Depth => 16,
            Refusal::Rate(r) => engine::Refusal::Rate(r).number(),
        }
    }

    // The refusal's place.
    pub fn place(self) -> u64
        ensures { result ≡ place_of self }
    {
        match self {
            Refusal::Depth => 0,
            Refusal::Rate(r) => engine::Refusal::Rate(r).place(),
        }
    }
}

// Whether a class may be cut to this depth.
pub fn is_depth(depth: i64) -> bool
    ensures { result ≡ is_depth depth }
{
    (0..=MOST_DEPTH).contains(&depth)
}

// Rating in parts: 10, 16, 8, 9, then the parts. 8 and 9 are those of the uncut ranges.
pub fn rate(engine: Engine, ranges: &[i64], depth: i64) -> Result<Limits, Refusal>
    ensures { in_full result ≡ cut_of engine ranges.now depth }
{
    let c = engine.codelist;
    if !codelist::is_ratable(c) {
        return Err(Refusal::Rate(rules::Refusal::NoCodelist));
    }
    if !is_depth(depth) {
        return Err(Refusal::Depth);
    }
    let n = usize::from(c.factors);
    if ranges.len() != 2 * n {
        return Err(Refusal::Rate(rules::Refusal::RangeCount));
    }
    if let Some(bad) = bounds::first_bad(ranges) {
        return Err(Refusal::Rate(rules::Refusal::BadRange(bad as u8)));
    }
    let mut ends = [0i64; 16];
    ends[..ranges.len()].copy_from_slice(ranges);
    Ok(parts::parts(c, ends, n, depth as u8)?)
}
