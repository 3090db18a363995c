// The cut: the widest range, the lowest factor on equal width, and its middle.
ghost use Rattle.std.specs.Prelude.{◌≡◌, true, ◌*◌, ◌<◌, set};
ghost use Rattle.range.specs.Limit.{is_valid};
ghost use Rattle.range.specs.Sums.{pair_at};
ghost use Rattle.bisection.specs.Cut as Cut;
ghost use Rattle.bisection.specs.Box.{box_of, Boxed};

use range::Range;

// The range of the factor a, counted from 0.
// Of sixteen ends, where `bounds` has one of a slice: neither crate lends the other what is private to it.
pub(crate) fn range_at(ends: &[i64; 16], a: usize) -> Range
    requires { a < 8 }
    ensures { result ≡ pair_at ends.now (2 * a) }
{
    Range::new(ends[2 * a], ends[2 * a + 1])
}

pub(crate) fn width(r: Range) -> i64
    requires { is_valid r ≡ true }
    ensures { result ≡ Cut.width_of r }
{
    r.high - r.low
}

// The middle, rounded down: both ends are at least −2,000,000,000, so that what is divided is not below 0.
pub(crate) fn middle(r: Range) -> i64
    requires { is_valid r ≡ true }
    ensures { result ≡ Cut.cut_point r }
{
    (r.low + r.high + 4_000_000_000) / 2 - 2_000_000_000
}

// The factor with the widest range, counted from 0, the lowest on equal width.
pub(crate) fn widest(ends: &[i64; 16], n: usize) -> usize
    requires { Boxed n ends.now }
    ensures { result ≡ Cut.widest (box_of n ends.now) }
{
    let mut best: usize = 0;
    let mut most = width(range_at(ends, 0));
    // By the factor, which is the answer. The ends are sixteen, as many as eight factors have, and n says how many count: no library allocates.
    for a in 1..n {
        let w = width(range_at(ends, a));
        if most < w {
            best = a;
            most = w;
        }
    }
    best
}

// The ends with m at i.
pub(crate) fn with_end(mut ends: [i64; 16], i: usize, m: i64) -> [i64; 16]
    requires { i < 16 }
    ensures { result ≡ set ends i m }
{
    ends[i] = m;
    ends
}
