// Square roots, rounded up: of a number, and of a product as the end of a range. A guess is made quickly and trusted for nothing; a search from
// there is exact.
ghost use Rattle.std.specs.Prelude.{◌≡◌, ◌≤◌, ◌*◌};
ghost use Rattle.exact.specs.Sqrt.{ceil_sqrt};
ghost use Rattle.range.specs.Steps.{around_root};

use super::{LIMIT, Range};

// The greatest end, and its square.
const MOST: u64 = LIMIT as u64;

const MOST_SQUARED: u64 = MOST * MOST;

// Where a search ends: no root is asked for of a number beyond its square, and the square fits.
const GREATEST_ROOT: u64 = 3_000_000_000;

// Half the number of the binary digits of x.
fn half_digits(x: u64) -> u32
    ensures { result ≤ 32 }
{
    (64 - x.leading_zeros()) / 2
}

// A first step of Newton's rule, from a power of 2 near the root of x, where a shift divides. The step errs upward, by up to 6%; a 32nd off,
// it errs by 3% either way.
fn first_near(x: u64) -> u64
    requires { x ≤ 9000000000000000000 }
    ensures { (1 ≤ result) × (result ≤ 9000000000000000000) }
{
    let h = half_digits(x);
    let r = ((1u64 << h) + (x >> h)) / 2;
    r - r / 32 + 1
}

// Near the root of x, by Newton's rule: nothing rests on how near. Each step squares the error, so that two that divide come within 1 of a
// root up to a million, and a third within 1 of any.
fn near_root(x: u64) -> u64
    requires { x ≤ 9000000000000000000 }
    ensures { result ≤ 3000000000 }
{
    let mut r = first_near(x);
    for _ in 0..2 {
        r = (r + x / r) / 2 + 1;
    }
    if 1_000_000 < r {
        r = (r + x / r) / 2 + 1;
    }
    r.min(GREATEST_ROOT)
}

// The first number from r on whose square is not below x.
// A search: the number is the answer, and no index.
fn root_above(x: u64, from: u64) -> u64
    requires x_bound { x ≤ 9000000000000000000 }
    requires from_bound { from ≤ 3000000000 }
    ensures { (x ≤ result * result) × (result ≤ 3000000000) }
{
    let mut r = from;
    while r * r < x {
        r += 1;
    }
    r
}

// From a number whose square is not below x down to the least one.
// A search, too. The bounds stand in the clauses of four functions: each makes a number of another kind of the one before.
fn least_root(x: u64, from: u64) -> u64
    requires le_x { 1 ≤ x }
    requires from_bound { from ≤ 3000000000 }
    requires x_bound { x ≤ from * from }
    ensures value { result ≡ ceil_sqrt x }
    ensures upper_bound { result ≤ 3000000000 }
{
    let mut r = from;
    while x <= (r - 1) * (r - 1) {
        r -= 1;
    }
    r
}

// The square root of x, rounded up.
pub(crate) fn root_up(x: u64) -> u64
    requires { x ≤ 9000000000000000000 }
    ensures value { result ≡ ceil_sqrt x }
    ensures upper_bound { result ≤ 3000000000 }
{
    if x == 0 {
        return 0;
    }
    least_root(x, root_above(x, near_root(x)))
}

// From −β to β, where β is the square root of x·y, rounded up. x·y may not fit 64 bits: where it is beyond the limit's square, which a
// division tells, β is beyond the limit.
pub fn around_root(x: u64, y: u64) -> Range
    ensures { result ≡ around_root x y }
{
    if x == 0 || y == 0 {
        return Range::ZERO;
    }
    if MOST_SQUARED / y < x {
        return Range::OVER;
    }
    let b = root_up(x * y) as i64;
    Range { low: -b, high: b }
}
