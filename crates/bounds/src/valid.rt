// Stand-ins for `Range`'s sum, product and hull where the operands are known to be valid, or are what an operation gave: the same results, with
// fewer tests. The methods in their place were measured: all of them take a third more time, and the hull of a join alone 4 % (bench/README.md).
// The validity stands in the clauses and not in a type of its own: the table has plain numbers, and what was read of them would be wrapped each time.
ghost use Rattle.std.specs.Prelude.{◌≡◌, true, ◌≤◌, nat_abs};
ghost use Rattle.std.specs.Int.Signed.{le_z};
ghost use Rattle.range.specs.Limit.{is_valid, kept};
ghost use Rattle.range.specs.Arithmetic.{sum_of, spread_of, product_of, hull_of};
ghost use Rattle.range.specs.Steps.{ends_by, sorted_of};
ghost use Rattle.bounds.specs.Terms.{Told};

use range::Range;

// A range whose ends are in order, if they are within the limit.
fn limited(r: Range) -> Range
    requires { le_z r.low r.high ≡ true }
    ensures { result ≡ kept r }
{
    let whole = Range::WHOLE;
    if (whole.low <= r.low) & (r.high <= whole.high) {
        r
    } else {
        Range::OVER
    }
}

pub(crate) fn sum(a: Range, b: Range) -> Range
    requires a_value { is_valid a ≡ true }
    requires b_value { is_valid b ≡ true }
    ensures { result ≡ sum_of a b }
{
    limited(Range::new(a.low + b.low, a.high + b.high))
}

// k times each end, in order.
fn by(k: i64, r: Range) -> Range
    requires r_value { is_valid r ≡ true }
    requires k_bound { nat_abs k ≤ 2000000000 }
    ensures { result ≡ sorted_of (ends_by k r) }
{
    Range::new(k * r.low, k * r.high).sorted()
}

// The least and the greatest of the four end products; of ranges that are not below 0 two are enough.
fn spread(a: Range, b: Range) -> Range
    requires a_value { is_valid a ≡ true }
    requires b_value { is_valid b ≡ true }
    ensures { result ≡ spread_of a b }
{
    if (0 <= a.low) & (0 <= b.low) {
        return Range::new(a.low * b.low, a.high * b.high);
    }
    by(a.low, b).ends_hull(by(a.high, b))
}

// b is tested for zero, as many slopes are.
pub(crate) fn product(a: Range, b: Range) -> Range
    requires a_value { is_valid a ≡ true }
    requires b_value { is_valid b ≡ true }
    ensures { result ≡ product_of a b }
{
    if b.is_zero() {
        return Range::ZERO;
    }
    spread(a, b).scaled_within()
}

// Whether what an operation gave is a range. Where it is none its ends are out of order, so that one comparison tells.
pub(crate) fn is_range(r: Range) -> bool
    requires { Told r }
    ensures { result ≡ is_valid r }
{
    r.low <= r.high
}

// The sum of what two operations gave.
pub(crate) fn told_sum(x: Range, y: Range) -> Range
    requires told { Told x }
    requires told_2 { Told y }
    ensures { result ≡ sum_of x y }
{
    if is_range(x) & is_range(y) {
        sum(x, y)
    } else {
        Range::OVER
    }
}

// The hull of what two operations gave.
pub(crate) fn told_hull(x: Range, y: Range) -> Range
    requires told { Told x }
    requires told_2 { Told y }
    ensures { result ≡ hull_of x y }
{
    if is_range(x) & is_range(y) {
        x.ends_hull(y)
    } else {
        Range::OVER
    }
}
