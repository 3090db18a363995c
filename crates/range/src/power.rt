// Powers of a range, by the signs of its ends.
ghost use Rattle.std.specs.Prelude.{◌≡◌, ◌≤◌};
ghost use Rattle.range.specs.Power.{is_even, pow_above, pow_below, pow_across_even, pow_across_odd, pow_across, pow_by_sign, pow_of};
ghost use Rattle.range.specs.Steps.{Magnitudes, Negatives, Astride};

use super::{Checked, Range};

fn even(e: u8) -> bool
    ensures { result ≡ is_even e }
{
    e % 2 == 0
}

impl Range {
    // Of magnitudes: the low end is rounded down throughout, the high end up.
    fn power_above(self, e: u8) -> Range
        requires { Magnitudes self e }
        ensures { result ≡ pow_above self e }
    {
        let mut r = self;
        for _ in 1..e {
            r = r.product(self);
        }
        r
    }

    pub fn power(self, e: u8) -> Range
        ensures { result ≡ pow_of self e }
    {
        let Some(a) = self.checked() else {
            return Range::OVER;
        };
        if e == 0 { Range::ONE } else { a.power(e) }
    }
}

// The sign of the ends is tested once, on the way here, and stands in the clauses of the three that take a range with 0 inside.
impl Checked {
    fn power_below(self, e: u8) -> Range
        requires { Negatives self.range e }
        ensures { result ≡ pow_below self.range e }
    {
        let m = self.negated().range.power_above(e);
        if even(e) { m } else { m.negated() }
    }

    fn across_even(self, e: u8) -> Range
        requires { Astride self.range e }
        ensures { result ≡ pow_across_even self.range e }
    {
        self.negated()
            .range
            .from_zero()
            .ends_hull(self.range.from_zero())
            .power_above(e)
    }

    fn across_odd(self, e: u8) -> Range
        requires { Astride self.range e }
        ensures { result ≡ pow_across_odd self.range e }
    {
        let low = self.negated().range.from_zero().power_above(e).negated();
        let high = self.range.from_zero().power_above(e);
        low.hull(high)
    }

    fn power_across(self, e: u8) -> Range
        requires { Astride self.range e }
        ensures { result ≡ pow_across self.range e }
    {
        if even(e) {
            self.across_even(e)
        } else {
            self.across_odd(e)
        }
    }

    fn power(self, e: u8) -> Range
        requires { 1 ≤ e }
        ensures { result ≡ pow_by_sign self.range e }
    {
        if 0 <= self.range.low {
            self.range.power_above(e)
        } else if self.range.high <= 0 {
            self.power_below(e)
        } else {
            self.power_across(e)
        }
    }
}
