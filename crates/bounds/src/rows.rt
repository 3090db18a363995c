// The rows of 01's table, a function each: the line k of the table, of the lines that an operation refers to. The answer is its slopes, if all
// its ranges are valid.
ghost use Rattle.std.specs.Prelude.{◌≡◌, true, ◌≤◌, ◌<◌, nat_abs, Some};
ghost use Rattle.range.specs.Limit.{is_valid};
ghost use Rattle.range.specs.Arithmetic.{product_of, inverse_of};
ghost use Rattle.rules.specs.Formula.{sticky};
ghost use Rattle.rules.specs.Run.{each_valid};
ghost use Rattle.rules.specs.Table.{factor_row, add_row, addc_row, mulc_row, product_spectrum, star_spectrum, mul_row, pow_row, inv_row};
ghost use Rattle.bounds.specs.Terms.{Told, Fine};
ghost use Rattle.bounds.specs.Table.{value_at, spectrum_at, gradient_at, line_at, Blank, Refers, line_with, SettledLine, Worked};

use super::table::{Head, Table};
use super::{spectrum, valid};
use range::Range;

// Writes the head of the line k, whose slopes g the table holds, if all its ranges are valid.
// `Blank`, `Refers` and `Fine` are of a line of the table as it stands before the row: a type of the table can't have them.
fn settle(t: &mut Table, k: usize, h: Head, g: [Range; 8]) -> Option<[Range; 8]>
    requires k_bound { k < 64 }
    requires told { Told h.value }
    requires told_2 { Told h.spectrum }
    requires g_valid { each_valid g ≡ true }
    requires g_value { gradient_at t.old k ≡ g }
    ensures { SettledLine (line_with h g) t.old k result t.new }
{
    if !(valid::is_range(h.value) & valid::is_range(h.spectrum)) {
        return None;
    }
    t.put_head(k, h);
    Some(g)
}

// 01's row `factor a`, with the bent set b; a is counted from 0, and its line is the line a.
pub(crate) fn factor(t: &mut Table, b: u8, a: usize, r: Range) -> [Range; 8]
    requires a_bound { a < 8 }
    requires blank { Blank t.old a }
    requires r_value { is_valid r ≡ true }
    ensures { Worked (factor_row b a r) t.old a (Some result) t.new }
{
    let mut g = [Range::ZERO; 8];
    g[a] = Range::ONE;
    t.put_slope(a, a, Range::ONE);
    t.put_head(
        a,
        Head {
            value: r,
            spectrum: Range::ZERO,
            support: 1u8 << a,
            nonlinear: b,
        },
    );
    g
}

// 01's row `add`.
pub(crate) fn add(t: &mut Table, i: usize, j: usize, k: usize) -> Option<[Range; 8]>
    requires k_bound { k < 64 }
    requires blank { Blank t.old k }
    requires refers { Refers t.old i k }
    requires refers_2 { Refers t.old j k }
    ensures { Worked (add_row (line_at t.old i) (line_at t.old j)) t.old k result t.new }
{
    let b = t.nonlinear(i);
    let c = t.nonlinear(j);
    let h = Head {
        value: valid::sum(t.value(i), t.value(j)),
        spectrum: spectrum::of_sum(t.spectrum(i), b, t.spectrum(j), c),
        support: t.support(i) | t.support(j),
        nonlinear: b | c,
    };
    let g = t.fill(k, h.support, i, j, |g, h| valid::sum(g, h))?;
    settle(t, k, h, g)
}

// 01's row `addc`.
pub(crate) fn addc(t: &mut Table, i: usize, c: i64, k: usize) -> Option<[Range; 8]>
    requires k_bound { k < 64 }
    requires blank { Blank t.old k }
    requires refers { Refers t.old i k }
    requires c_bound { nat_abs c ≤ 2000000000 }
    ensures { Worked (addc_row (line_at t.old i) c) t.old k result t.new }
{
    let h = Head {
        value: valid::sum(t.value(i), Range::new(c, c)),
        spectrum: t.spectrum(i),
        support: t.support(i),
        nonlinear: t.nonlinear(i),
    };
    let g = t.copied(k, h.support, i);
    settle(t, k, h, g)
}

// 01's row `mulc`.
pub(crate) fn mulc(t: &mut Table, i: usize, c: i64, k: usize) -> Option<[Range; 8]>
    requires k_bound { k < 64 }
    requires blank { Blank t.old k }
    requires refers { Refers t.old i k }
    requires c_bound { nat_abs c ≤ 2000000000 }
    ensures { Worked (mulc_row (line_at t.old i) c) t.old k result t.new }
{
    let q = Range::new(c, c);
    let h = Head {
        value: valid::product(q, t.value(i)),
        spectrum: valid::product(q, t.spectrum(i)),
        support: t.support(i),
        nonlinear: t.nonlinear(i),
    };
    let g = t.fill(k, h.support, i, i, |g, _| valid::product(q, g))?;
    settle(t, k, h, g)
}

// V_j·E_i.
fn weighted_spectrum(t: &Table, i: usize, j: usize) -> Range
    requires i_bound { i < 64 }
    requires j_bound { j < 64 }
    requires i_value { is_valid (spectrum_at t.now i) ≡ true }
    requires j_value { is_valid (value_at t.now j) ≡ true }
    ensures { result ≡ product_of (value_at t.now j) (spectrum_at t.now i) }
{
    valid::product(t.value(j), t.spectrum(i))
}

// 01's E of a product: Cross, plus the join of the two lines' own bends.
fn joined_spectrum(t: &Table, i: usize, j: usize) -> Range
    requires i_bound { i < 64 }
    requires j_bound { j < 64 }
    requires fine { Fine (line_at t.now i) }
    requires fine_2 { Fine (line_at t.now j) }
    ensures { result ≡ sticky (product_spectrum (line_at t.now i) (line_at t.now j)) }
{
    let p = t.reach(i) | t.reach(j);
    let b = t.nonlinear(i);
    let c = t.nonlinear(j);
    let own = spectrum::of_sum(weighted_spectrum(t, i, j), b, weighted_spectrum(t, j, i), c);
    valid::told_sum(
        spectrum::of_cross(t, p, i, j),
        spectrum::extended(own, b | c, p),
    )
}

// The E of a product of two lines of one factor each, different ones: 02, request 4.
fn star_spectrum(t: &Table, i: usize, j: usize) -> Range
    requires i_bound { i < 64 }
    requires j_bound { j < 64 }
    requires fine { Fine (line_at t.now i) }
    requires fine_2 { Fine (line_at t.now j) }
    ensures { result ≡ sticky (star_spectrum (line_at t.now i) (line_at t.now j)) }
{
    let a = weighted_spectrum(t, i, j);
    let b = weighted_spectrum(t, j, i);
    let g = spectrum::only_of(t, t.reach(i), i);
    let h = spectrum::only_of(t, t.reach(j), j);
    a.star(b, valid::product(g, h))
}

// The E of the row `mul`.
fn product_spectrum(t: &Table, i: usize, j: usize) -> Range
    requires i_bound { i < 64 }
    requires j_bound { j < 64 }
    requires fine { Fine (line_at t.now i) }
    requires fine_2 { Fine (line_at t.now j) }
    ensures { result ≡ sticky (mul_row (line_at t.now i) (line_at t.now j)).spectrum }
{
    if spectrum::are_singles(t.reach(i), t.reach(j), t.nonlinear(i), t.nonlinear(j)) {
        star_spectrum(t, i, j)
    } else {
        joined_spectrum(t, i, j)
    }
}

// 01's row `mul`.
pub(crate) fn mul(t: &mut Table, i: usize, j: usize, k: usize) -> Option<[Range; 8]>
    requires k_bound { k < 64 }
    requires blank { Blank t.old k }
    requires refers { Refers t.old i k }
    requires refers_2 { Refers t.old j k }
    ensures { Worked (mul_row (line_at t.old i) (line_at t.old j)) t.old k result t.new }
{
    let v = t.value(i);
    let w = t.value(j);
    let h = Head {
        value: valid::product(v, w),
        spectrum: product_spectrum(t, i, j),
        support: t.support(i) | t.support(j),
        nonlinear: t.reach(i) | t.reach(j),
    };
    let g = t.fill(k, h.support, i, j, |g, h| {
        valid::told_sum(valid::product(v, h), valid::product(w, g))
    })?;
    settle(t, k, h, g)
}

// The E of 01's row `pow`.
fn power_spectrum(t: &Table, i: usize, m: u8) -> Range
    requires i_bound { i < 64 }
    requires fine { Fine (line_at t.now i) }
    requires le_m { 2 ≤ m }
    ensures { result ≡ sticky (pow_row (line_at t.now i) m).spectrum }
{
    let p = t.reach(i);
    let x = t.value(i);
    let squares = spectrum::of_square(t, p, i).times(m - 1);
    let own = x.product(spectrum::extended(t.spectrum(i), t.nonlinear(i), p));
    x.power(m - 2).product(squares.sum(own)).times(m)
}

// 01's row `pow`. Every slope is a multiple of V^(m−1), so that an `OVER` there is one in the line, whatever the support.
pub(crate) fn pow(t: &mut Table, i: usize, m: u8, k: usize) -> Option<[Range; 8]>
    requires k_bound { k < 64 }
    requires blank { Blank t.old k }
    requires refers { Refers t.old i k }
    requires le_m { 2 ≤ m }
    ensures { Worked (pow_row (line_at t.old i) m) t.old k result t.new }
{
    let x = t.value(i);
    let q = x.power(m - 1);
    if !q.valid() {
        return None;
    }
    let h = Head {
        value: x.power(m),
        spectrum: power_spectrum(t, i, m),
        support: t.support(i),
        nonlinear: t.reach(i),
    };
    let g = t.fill(k, h.support, i, i, |g, _| valid::product(q, g).times(m))?;
    settle(t, k, h, g)
}

// The E of 01's row `inv`; v is the line's own value.
fn inverse_spectrum(t: &Table, i: usize, v: Range) -> Range
    requires i_bound { i < 64 }
    requires fine { Fine (line_at t.now i) }
    requires v_value { v ≡ inverse_of (value_at t.now i) }
    ensures { result ≡ sticky (inv_row (line_at t.now i)).spectrum }
{
    let p = t.reach(i);
    let squares = v.product(spectrum::of_square(t, p, i)).times(2);
    let own = spectrum::extended(t.spectrum(i), t.nonlinear(i), p).negated();
    v.power(2).product(squares.sum(own))
}

// 01's row `inv`. Every slope is a multiple of V_k², as in `pow`.
pub(crate) fn inv(t: &mut Table, i: usize, k: usize) -> Option<[Range; 8]>
    requires k_bound { k < 64 }
    requires blank { Blank t.old k }
    requires refers { Refers t.old i k }
    ensures { Worked (inv_row (line_at t.old i)) t.old k result t.new }
{
    let v = t.value(i).inverse();
    let q = v.power(2);
    if !q.valid() {
        return None;
    }
    let h = Head {
        value: v,
        spectrum: inverse_spectrum(t, i, v),
        support: t.support(i),
        nonlinear: t.reach(i),
    };
    let minus = q.negated();
    let g = t.fill(k, h.support, i, i, |g, _| valid::product(minus, g))?;
    settle(t, k, h, g)
}
