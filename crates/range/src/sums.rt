// Sums over the factors of a set: one step, of which only the total counts. A set is a mask whose bit a stands for the factor a, counted
// from 0. The ranges are lent as a list of numbers, two for each range, its low end first. Eight ranges in a row, one for each factor, are told
// by the offset at which they begin, so that one list may hold many rows. They are read where they lie, and each once.
ghost use Rattle.std.specs.Prelude.{◌≡◌, true, ◌<◌, pos, nat_abs, get_or};
ghost use Rattle.std.specs.Int.Signed.{le_z};
ghost use Rattle.range.specs.Arithmetic.{sum_of, ends_product};
ghost use Rattle.range.specs.Sums.{at, ranges_from, products_of, largest_square, squares_of, root_of};
ghost use Rattle.range.specs.Steps.{EightSquares, with_square, rounded_up};

use super::root::around_root;
use super::{Checked, Range};

// The number of a list at the offset m; 0 past its end.
// 0, and no option, as `ranges_from` of the specs has it.
fn number_at(t: &[i32], m: usize) -> i64
    ensures { result ≡ get_or t.now m (pos 0) }
{
    t.get(m).map_or(0, |x| i64::from(*x))
}

// The range of the factor a, of the eight that begin at the offset i.
fn range_at(t: &[i32], i: u16, a: usize) -> Range
    requires { a < 8 }
    ensures { result ≡ at (ranges_from t.now i) a }
{
    let m = i as usize + 2 * a;
    Range {
        low: number_at(t, m),
        high: number_at(t, m + 1),
    }
}

// An exact sum of squares. Eight squares may not fit 64 bits, so that their quotients and their remainders by 10,000 are added up apart.
// `plus` does not keep `EightSquares`, so that it is no invariant.
#[derive(Clone, Copy)]
struct Squares {
    whole: u64,
    rest: u64,
}

impl Squares {
    const NONE: Squares = Squares { whole: 0, rest: 0 };

    // The sum with the square x more.
    fn plus(self, x: u64) -> Squares
        requires { EightSquares self }
        ensures { result ≡ with_square self x }
    {
        Squares {
            whole: self.whole + x / 10_000,
            rest: self.rest + x % 10_000,
        }
    }

    // The sum with the largest square of a range more. Many slopes are zero, and are spared.
    fn with(self, r: Checked) -> Squares
        requires { EightSquares self }
        ensures { result ≡ with_square self (nat_abs (largest_square r.range)) }
    {
        if r.range.is_zero() {
            return self;
        }
        self.plus(r.largest_square())
    }

    // The sum divided by 10,000 and rounded up, a single time.
    fn rounded_up(self) -> u64
        requires { EightSquares self }
        ensures { result ≡ rounded_up self }
    {
        self.whole + (self.rest + 9_999) / 10_000
    }
}

impl Checked {
    // The larger of the squares of the ends.
    fn largest_square(self) -> u64
        ensures { result ≡ nat_abs (largest_square self.range) }
    {
        self.end_by_end(self).sorted().magnitude()
    }

    // The ends of a product in a sum, where many ranges are zero.
    fn slopes_product(self, other: Checked) -> Range
        ensures { result ≡ ends_product self.range other.range }
    {
        if self.range.is_zero() | other.range.is_zero() {
            return Range::ZERO;
        }
        self.product(other)
    }
}

impl Range {
    // The high end of a range that is not below 0.
    fn magnitude(self) -> u64
        requires { le_z (pos 0) self.high ≡ true }
        ensures { result ≡ nat_abs self.high }
    {
        self.high as u64
    }

    // 01's Cross over two factors or more, of two rows of eight ranges in the list t, g at the offset i and h at j: the sum of the products g_a·h_a
    // over the factors a in the set, plus from −β to β, β the root of the product of the two sums of squares, rounded up.
    pub fn cross(set: u8, t: &[i32], i: u16, j: u16) -> Range
        ensures { result ≡ sum_of
            (products_of set (ranges_from t.now i) (ranges_from t.now j))
            (root_of set (ranges_from t.now i) (ranges_from t.now j)) }
    {
        let mut products = Range::ZERO;
        let mut left = Squares::NONE;
        let mut right = Squares::NONE;
        let mut rest = set;
        // By the factor, of which the set and the rows are asked.
        for a in 0..8 {
            if rest % 2 == 1 {
                let (g, h) = (range_at(t, i, a), range_at(t, j, a));
                let (Some(g), Some(h)) = (g.checked(), h.checked()) else {
                    return Range::OVER;
                };
                products = products.ends_sum(g.slopes_product(h));
                left = left.with(g);
                right = right.with(h);
            }
            rest /= 2;
        }
        products
            .kept()
            .sum(around_root(left.rounded_up(), right.rounded_up()))
    }

    // From 0 to the sum of the largest squares of the g_a over the factors a in the set, g the eight ranges of the list t at the offset i.
    pub fn sum_of_squares(set: u8, t: &[i32], i: u16) -> Range
        ensures { result ≡ squares_of set (ranges_from t.now i) }
    {
        let mut total = Squares::NONE;
        let mut rest = set;
        // By the factor, of which the set and the rows are asked.
        for a in 0..8 {
            if rest % 2 == 1 {
                let Some(g) = range_at(t, i, a).checked() else {
                    return Range::OVER;
                };
                total = total.with(g);
            }
            rest /= 2;
        }
        Range {
            low: 0,
            high: total.rounded_up() as i64,
        }
        .kept()
    }
}
