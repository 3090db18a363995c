// The bend of a product of two lines of one factor each, different ones: 02, request 4 (Λ⋆ of source 000). The Hessian has two rows; two ranges
// bound its diagonal, and a third one what stands beside it. No end of the three may pass half the limit, so that all that is worked out of
// them fits 64 bits.
ghost use Rattle.std.specs.Prelude.{◌≡◌, true, ◌≤◌, nat_abs, ◌+ℤ◌, ◌-ℤ◌};
ghost use Rattle.exact.specs.Div.{floor_div, ceil_div};
ghost use Rattle.range.specs.Star.{magnitude_of, star_root, ends_star, is_half, star_of};

use super::root::root_up;
use super::{LIMIT, Range, ceil_div, floor_div};

const HALF: i64 = LIMIT / 2;

// Two ends and R come to 5,000,000,000 at the most, either sign; twice this is more.
const SHIFT: i64 = 3_000_000_000;

fn half_down(x: i64) -> i64
    requires { nat_abs x ≤ 5000000000 }
    ensures { result ≡ floor_div x 2 }
{
    floor_div(x, 2, SHIFT)
}

fn half_up(x: i64) -> i64
    requires { nat_abs x ≤ 5000000000 }
    ensures { result ≡ ceil_div x 2 }
{
    ceil_div(x, 2, SHIFT)
}

// The rows a, m and m, b: numbers of at most half the limit, so that all that is worked out of them fits 64 bits.
#[derive(Clone, Copy)]
struct Matrix {
    a: i64,
    b: i64,
    m: i64,
    ghost a_half: { nat_abs a ≤ 1000000000 },
    ghost b_half: { nat_abs b ≤ 1000000000 },
    ghost m_half: { nat_abs m ≤ 1000000000 },
}

impl Matrix {
    // R: the square root of (a − b)² + 4·m², rounded up. It is how far the two eigenvalues are apart.
    fn root(self) -> i64
        ensures value { result ≡ star_root self.a self.b self.m }
        ensures result_bound { nat_abs result ≤ 3000000000 }
    {
        let d = self.a - self.b;
        root_up((d * d + 4 * (self.m * self.m)) as u64) as i64
    }

    // The lesser eigenvalue: half of a + b − R, rounded down.
    fn least(self) -> i64
        ensures { result ≡ floor_div (self.a +ℤ self.b -ℤ star_root self.a self.b self.m) 2 }
    {
        half_down(self.a + self.b - self.root())
    }

    // The greater one: half of a + b + R, rounded up.
    fn greatest(self) -> i64
        ensures { result ≡ ceil_div (self.a +ℤ self.b +ℤ star_root self.a self.b self.m) 2 }
    {
        half_up(self.a + self.b + self.root())
    }
}

impl Range {
    // Whether the ends are in order and within half the limit.
    fn is_half(self) -> bool
        ensures { result ≡ is_half self }
    {
        (-HALF <= self.low) & ((self.low <= self.high) & (self.high <= HALF))
    }

    // The larger of the magnitudes of the ends.
    fn largest_magnitude(self) -> i64
        requires { is_half self ≡ true }
        ensures { result ≡ magnitude_of self }
    {
        (-self.low).max(self.high)
    }

    fn ends_star(self, other: Range, off: Range) -> Range
        requires self_value { is_half self ≡ true }
        requires other_value { is_half other ≡ true }
        requires off_value { is_half off ≡ true }
        ensures { result ≡ ends_star self other off }
    {
        let m = off.largest_magnitude();
        let lows = Matrix {
            a: self.low,
            b: other.low,
            m,
        };
        let highs = Matrix {
            a: self.high,
            b: other.high,
            m,
        };
        Range {
            low: lows.least(),
            high: highs.greatest(),
        }
    }

    // The eigenvalues of the matrix of two rows with numbers of these two ranges on its diagonal, and of `off` beside it.
    pub fn star(self, other: Range, off: Range) -> Range
        ensures { result ≡ star_of self other off }
    {
        if self.is_half() & (other.is_half() & off.is_half()) {
            self.ends_star(other, off)
        } else {
            Range::OVER
        }
    }
}
