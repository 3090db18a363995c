// Ranges of whole numbers of units: one unit is 1/10,000, and an end is at most 2,000,000,000 units, either sign.
// Every operation is total. A result with an end beyond the limit is `OVER`, which is no range, and an operand that is no valid range gives
// `OVER` too: so a caller tests the last of many operations, and not each.
#![tactic(auto)]

ghost use Rattle.std.specs.Prelude.{◌≡◌, true, false, ◌&&◌, ◌≤◌, pos, nat_abs, ◌*ℤ◌, IfSome, IfNone};
ghost use Rattle.std.specs.Int.Signed.{le_z, lt_z};
ghost use Rattle.exact.specs.Div.{floor_div, ceil_div};
ghost use Rattle.range.specs.Limit.{from_to, is_valid, kept};
ghost use Rattle.range.specs.Arithmetic.{ends_sum, sum_of, ends_neg, neg_of, times_of};
ghost use Rattle.range.specs.Arithmetic.{spread_of, scaled_of, ends_product, product_of, inverse_of, ends_hull, hull_of};
ghost use Rattle.range.specs.Steps.{Small, Shiftable, ends_by, sorted_of, scaled_within, ends_over, inv_above, inv_below, up_to, is_zero};

mod power; // power.rt: the power of a range
mod root; // root.rt: square roots, rounded up
mod star; // star.rt: the bend of a product of two lines of one factor each
mod sums; // sums.rt: sums over the factors of a set

// "The limit is 2,000,000,000 units, either sign."
const LIMIT: i64 = 2_000_000_000;

// What 10,000 divides to the limit.
const DIVIDEND_LIMIT: i64 = 10_000 * LIMIT;

// What 10,000 divides the greatest product to, that of the limit with itself.
const PRODUCT_SHIFT: i64 = LIMIT / 10_000 * LIMIT;

#[derive(Clone, Copy, PartialEq, Eq)]
pub struct Range {
    pub low: i64,
    pub high: i64,
}

// A range whose ends are in order and within the limit: the steps inside an operation take and give these, so that none of them tests it again.
#[derive(Clone, Copy)]
struct Checked {
    range: Range,
    ghost valid: { is_valid range ≡ true },
}

// x / d, rounded toward minus infinity, without a branch on the sign of x: the dividend is raised by k times the divisor, so that it is not below 0, and the
// quotient is lowered by k. It is divided as an unsigned number, which by a divisor that the compiler knows is a multiplication and a shift.
fn floor_div(x: i64, d: i64, k: i64) -> i64
    requires { Shiftable x d k }
    ensures { result ≡ floor_div x (nat_abs d) }
{
    ((x + k * d) as u64 / d as u64) as i64 - k
}

// x / d, rounded toward plus infinity, which is down from d − 1 more.
fn ceil_div(x: i64, d: i64, k: i64) -> i64
    requires { Shiftable x d k }
    ensures { result ≡ ceil_div x (nat_abs d) }
{
    ((x + k * d + (d - 1)) as u64 / d as u64) as i64 - k
}

impl Range {
    pub const ZERO: Range = Range { low: 0, high: 0 };

    pub const ONE: Range = Range {
        low: 10_000,
        high: 10_000,
    };

    pub const WHOLE: Range = Range {
        low: -LIMIT,
        high: LIMIT,
    };

    pub const OVER: Range = Range { low: 1, high: 0 };

    pub fn new(low: i64, high: i64) -> Range
        ensures { result ≡ from_to low high }
    {
        Range { low, high }
    }

    // Whether the ends are in order and within the limit.
    pub fn valid(self) -> bool
        ensures { result ≡ is_valid self }
    {
        let whole = Range::WHOLE;
        (whole.low <= self.low) & (self.low <= self.high) & (self.high <= whole.high)
    }

    // Whether both ends are 0: a product with such a range need not be worked out.
    pub fn is_zero(self) -> bool
        ensures { result ≡ is_zero self }
    {
        self == Range::ZERO
    }

    // This range as one that is tested, if it is one.
    fn checked(self) -> Option<Checked>
        ensures some { IfSome result (λ r. r.range ≡ self) }
        ensures none { IfNone result (is_valid self ≡ false) }
    {
        if self.valid() {
            Some(Checked { range: self })
        } else {
            None
        }
    }

    // This range, if it is one.
    fn kept(self) -> Range
        ensures { result ≡ kept self }
    {
        if self.valid() { self } else { Range::OVER }
    }

    fn ends_sum(self, other: Range) -> Range
        requires small { Small self }
        requires small_2 { Small other }
        ensures { result ≡ ends_sum self other }
    {
        Range {
            low: self.low + other.low,
            high: self.high + other.high,
        }
    }

    pub fn sum(self, other: Range) -> Range
        ensures { result ≡ sum_of self other }
    {
        let (Some(a), Some(b)) = (self.checked(), other.checked()) else {
            return Range::OVER;
        };
        a.range.ends_sum(b.range).kept()
    }

    pub fn negated(self) -> Range
        ensures { result ≡ neg_of self }
    {
        let Some(a) = self.checked() else {
            return Range::OVER;
        };
        a.negated().range
    }

    // k times this range, k a whole number.
    pub fn times(self, k: u8) -> Range
        ensures { result ≡ times_of k self }
    {
        let Some(a) = self.checked() else {
            return Range::OVER;
        };
        a.by(i64::from(k)).kept()
    }

    // The two ends in order.
    pub fn sorted(self) -> Range
        ensures { result ≡ sorted_of self }
    {
        Range {
            low: self.low.min(self.high),
            high: self.low.max(self.high),
        }
    }

    // The least and the greatest end, of any two.
    pub fn ends_hull(self, other: Range) -> Range
        ensures { result ≡ ends_hull self other }
    {
        Range {
            low: self.low.min(other.low),
            high: self.high.max(other.high),
        }
    }

    // From 0 to the high end.
    fn from_zero(self) -> Range
        ensures { result ≡ up_to self.high }
    {
        Range {
            low: 0,
            high: self.high,
        }
    }

    // Divided by 10,000, outward: the end products of two ranges.
    fn scaled(self) -> Range
        requires { Small self }
        ensures { result ≡ scaled_of self }
    {
        Range {
            low: floor_div(self.low, 10_000, PRODUCT_SHIFT),
            high: ceil_div(self.high, 10_000, PRODUCT_SHIFT),
        }
    }

    // Divided by 10,000, outward, if that is within the limit. It is tested before the division, so that no dividend is farther below 0 than 2·10^13.
    pub fn scaled_within(self) -> Range
        ensures { result ≡ scaled_within self }
    {
        if (-DIVIDEND_LIMIT <= self.low)
            & ((self.low <= self.high) & (self.high <= DIVIDEND_LIMIT))
        {
            Range {
                low: floor_div(self.low, 10_000, LIMIT),
                high: ceil_div(self.high, 10_000, LIMIT),
            }
        } else {
            Range::OVER
        }
    }

    fn both_above(self, other: Range) -> bool
        ensures { result ≡ (le_z (pos 0) self.low && le_z (pos 0) other.low) }
    {
        (0 <= self.low) & (0 <= other.low)
    }

    pub fn product(self, other: Range) -> Range
        ensures { result ≡ product_of self other }
    {
        let (Some(a), Some(b)) = (self.checked(), other.checked()) else {
            return Range::OVER;
        };
        a.product(b).kept()
    }

    // n divided by each end, outward. n is not below 0, so that nothing is added.
    fn ends_over(self, n: i64) -> Range
        requires shiftable { Shiftable n self.low (pos 0) }
        requires shiftable_2 { Shiftable n self.high (pos 0) }
        ensures { result ≡ ends_over n self }
    {
        Range {
            low: floor_div(n, self.low, 0),
            high: ceil_div(n, self.high, 0),
        }
    }

    // 1 over this range: `OVER` where it holds 0.
    pub fn inverse(self) -> Range
        ensures { result ≡ inverse_of self }
    {
        let Some(a) = self.checked() else {
            return Range::OVER;
        };
        a.inverse()
    }

    // The least range that holds both. Its ends are worked out before the test, which spares the processor a branch.
    pub fn hull(self, other: Range) -> Range
        ensures { result ≡ hull_of self other }
    {
        let both = self.ends_hull(other);
        if self.valid() & other.valid() {
            both
        } else {
            Range::OVER
        }
    }
}

impl Checked {
    fn negated(self) -> Checked
        ensures { result.range ≡ ends_neg self.range }
    {
        Checked {
            range: Range {
                low: -self.range.high,
                high: -self.range.low,
            },
        }
    }

    // k times each end.
    fn by(self, k: i64) -> Range
        requires { nat_abs k ≤ 2000000000 }
        ensures { result ≡ ends_by k self.range }
    {
        Range {
            low: k * self.range.low,
            high: k * self.range.high,
        }
    }

    // The products of the low ends and of the high ends.
    fn end_by_end(self, other: Checked) -> Range
        ensures { result ≡ from_to (self.range.low *ℤ other.range.low) (self.range.high *ℤ other.range.high) }
    {
        Range {
            low: self.range.low * other.range.low,
            high: self.range.high * other.range.high,
        }
    }

    // The least and the greatest of the four end products. Of ranges that are not below 0 they are those of the low ends and of the high ends,
    // which spares two products.
    fn spread(self, other: Checked) -> Range
        ensures { result ≡ spread_of self.range other.range }
    {
        if self.range.both_above(other.range) {
            return self.end_by_end(other);
        }
        let a = other.by(self.range.low).sorted();
        let b = other.by(self.range.high).sorted();
        a.ends_hull(b)
    }

    // The ends of the product.
    fn product(self, other: Checked) -> Range
        ensures { result ≡ ends_product self.range other.range }
    {
        self.spread(other).scaled()
    }

    // The inverse of a range above 0.
    fn inverse_above(self) -> Range
        requires { lt_z (pos 0) self.range.low ≡ true }
        ensures { result ≡ inv_above self.range }
    {
        let by = Range {
            low: self.range.high,
            high: self.range.low,
        };
        by.ends_over(100_000_000).kept()
    }

    // The inverse of a range below 0: that of the range with its signs changed, with its signs changed. So no dividend is below 0.
    fn inverse_below(self) -> Range
        requires { lt_z self.range.high (pos 0) ≡ true }
        ensures { result ≡ inv_below self.range }
    {
        self.negated().inverse_above().negated()
    }

    fn inverse(self) -> Range
        ensures { result ≡ inverse_of self.range }
    {
        if 0 < self.range.low {
            self.inverse_above()
        } else if self.range.high < 0 {
            self.inverse_below()
        } else {
            Range::OVER
        }
    }
}
