// The search: rating moves at a widening where it moves at a smaller one (`monotone`), so that the least of each factor is found by halving. At most eight
// ratings a factor.
ghost use Rattle.std.specs.Prelude.{◌≡◌, true, ◌≤◌, Ok};
ghost use Rattle.margin.specs.Edge.{moves, most_units, edge_of, in_full};
ghost use Rattle.margin.specs.Search.{Rateable, Least};
ghost use Rattle.margin.specs.Promises.{Factor};

use super::{Widening, widen};
use codelist::Codelist;

// The most units that a range is widened by.
const MOST_UNITS: u8 = 100;

// The least widening of the factor a that moves, where `most` does.
// `Rateable` is of the codelist and the ranges together, as the caller lends them.
fn least(c: Codelist, ranges: &[i64], a: u8, most: u8, ceiling: i64) -> u8
    requires rateable { Rateable c ranges.now }
    requires factor { Factor c a }
    requires le_most { 1 ≤ most }
    requires most_le_most_units { most ≤ most_units }
    requires most_value { moves c ranges.now ceiling a most ≡ true }
    ensures least { Least (moves c ranges.now ceiling a) result }
    ensures upper_bound { result ≤ most }
{
    // nothing up to `still` moves, and `moved` does
    let mut still: u8 = 0;
    let mut moved = most;
    while still + 1 < moved {
        let middle = (still + moved) / 2;
        if widen::moves(c, ranges, a, middle, ceiling) {
            moved = middle;
        } else {
            still = middle;
        }
    }
    moved
}

// The first of all that move: each factor is asked for one unit less than the best so far, so that a later one must be better.
pub(crate) fn first(c: Codelist, ranges: &[i64], ceiling: i64) -> Option<Widening>
    requires { Rateable c ranges.now }
    ensures { in_full (Ok result) ≡ edge_of c ranges.now ceiling }
{
    let mut best: Option<Widening> = None;
    // `most` is 0 where no better one is possible.
    for factor in 1..=c.factors {
        let most = match best {
            None => MOST_UNITS,
            Some(w) => w.units - 1,
        };
        if most != 0 && widen::moves(c, ranges, factor, most, ceiling) {
            let units = least(c, ranges, factor, most, ceiling);
            best = Some(Widening { factor, units });
        }
    }
    best
}
