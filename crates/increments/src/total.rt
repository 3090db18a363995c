// The sums of the least and of the greatest products of each slope's ends with that factor's difference.
ghost use Rattle.std.specs.Prelude.{◌≡◌, ◌≤◌, nat_abs, Ok};
ghost use Rattle.exact.specs.Div.{floor_div};
ghost use Rattle.range.specs.Limit.{from_to};
ghost use Rattle.increments.specs.Call.{difference_of, in_full};
ghost use Rattle.increments.specs.Steps.{least_end, greatest_end, Room, with_product, rounded_down, rounded_up, Apart};

use range::Range;

// x / 10,000, rounded toward minus infinity. What is divided is raised by 10^15, so that it is not below 0: no branch on its sign, as `div_euclid` has.
fn floor_div(x: i64) -> i64
    requires { nat_abs x ≤ 1000000000000000 }
    ensures { result ≡ floor_div x 10000 }
{
    (x + 1_000_000_000_000_000) / 10_000 - 100_000_000_000
}

// A sum of products, exact: 10,000 times `whole`, and `rest`. Eight products of slopes and differences may not fit 64 bits.
// With a sign, where `Squares` of range has none. `plus` does not keep `Room`, so that it is no invariant.
#[derive(Clone, Copy)]
struct Total {
    whole: i64,
    rest: i64,
}

impl Total {
    const NONE: Total = Total { whole: 0, rest: 0 };

    // The sum with the product e·d more. e is parted into a multiple of 10,000 and 0 to 9,999 more.
    fn plus(self, e: i64, d: i64) -> Total
        requires room { Room self }
        requires e_bound { nat_abs e ≤ 2000000000 }
        requires d_bound { nat_abs d ≤ 4000000000 }
        ensures { result ≡ with_product self e d }
    {
        let q = floor_div(e);
        Total {
            whole: self.whole + q * d,
            rest: self.rest + (e - 10_000 * q) * d,
        }
    }

    // The sum divided by 10,000, once, and rounded down.
    fn rounded_down(self) -> i64
        requires whole_bound { nat_abs self.whole ≤ 10000000000000000 }
        requires rest_bound { nat_abs self.rest ≤ 1000000000000000 }
        ensures { result ≡ rounded_down self }
    {
        self.whole + floor_div(self.rest)
    }

    // And rounded up, which is down from 9,999 more.
    fn rounded_up(self) -> i64
        requires { Room self }
        ensures { result ≡ rounded_up self }
    {
        let rest = self.rest + 9_999;
        Total { rest, ..self }.rounded_down()
    }
}

// The ends of a slope, that whose product with d is the lesser as the low one.
fn ends_by(slope: Range, d: i64) -> Range
    ensures { result ≡ from_to (least_end slope d) (greatest_end slope d) }
{
    if 0 <= d {
        slope
    } else {
        Range::new(slope.high, slope.low)
    }
}

// The difference of two boats that are inside.
pub(crate) fn difference(slopes: [Range; 8], boats: &[i64], n: usize) -> Range
    requires { Apart n slopes boats.now }
    ensures { in_full (Ok result) ≡ difference_of n slopes boats.now }
{
    let mut least = Total::NONE;
    let mut greatest = Total::NONE;
    // By the factor: its slope, and a value of each boat.
    for a in 0..n {
        let d = boats[n + a] - boats[a];
        let ends = ends_by(slopes[a], d);
        least = least.plus(ends.low, d);
        greatest = greatest.plus(ends.high, d);
    }
    Range::new(least.rounded_down(), greatest.rounded_up())
}
