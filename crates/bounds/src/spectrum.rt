// Sets of factors as masks, and spectra over them: bounds of the eigenvalues of a Hessian that is zero outside a set.
ghost use Rattle.std.specs.Prelude.{◌≡◌, ◌+◌, ◌*◌, ◌≤◌, ◌<◌};
ghost use Rattle.range.specs.Sums.{at};
ghost use Rattle.rules.specs.Sets.{all_of, apart, is_single, only};
ghost use Rattle.rules.specs.Table.{are_singles};
ghost use Rattle.bounds.specs.Terms.{Told, extended_of, sum_spectrum_of, square_spectrum_of, cross_spectrum_of};
ghost use Rattle.bounds.specs.Table.{gradient_at};

use super::table::Table;
use super::valid;
use range::Range;

// The first n factors.
// A set is a mask, as 01 names the form; n ≤ 8 is what a codelist says of its factors.
pub(crate) fn all_of(n: u8) -> u8
    requires { n ≤ 8 }
    ensures { result ≡ all_of n }
{
    ((1u16 << n) - 1) as u8
}

// Both have members, and none in common.
fn are_apart(s: u8, t: u8) -> bool
    ensures { result ≡ apart s t }
{
    (s != 0) & ((t != 0) & (s & t == 0))
}

fn is_single(s: u8) -> bool
    ensures { result ≡ is_single s }
{
    u8::count_ones(s) == 1
}

// Whether p and q are sets of one factor each, different ones, and b and c are not both empty.
pub(crate) fn are_singles(p: u8, q: u8, b: u8, c: u8) -> bool
    ensures { result ≡ are_singles p q b c }
{
    is_single(p) & (is_single(q) & (are_apart(p, q) & (b | c != 0)))
}

// The slope of the line i for the only factor in the set, if there is one.
pub(crate) fn only_of(t: &Table, set: u8, i: usize) -> Range
    requires { i < 64 }
    ensures { result ≡ at (gradient_at t.now i) (only set) }
{
    let a = u8::trailing_zeros(set) as usize;
    if a < 8 { t.slope(i, a) } else { Range::ZERO }
}

// Where the slopes of the line i begin in the table.
fn slopes_of(i: usize) -> u16
    requires { i < 64 }
    ensures { result ≡ 20 * i + 4 }
{
    (20 * i + 4) as u16
}

// The spectrum e over the set b, extended to the set c: 01's lift.
pub(crate) fn extended(e: Range, b: u8, c: u8) -> Range
    ensures { result ≡ extended_of e b c }
{
    if b == c { e } else { e.hull(Range::ZERO) }
}

// The spectrum of a sum of e over b and f over c: 01's join.
pub(crate) fn of_sum(e: Range, b: u8, f: Range, c: u8) -> Range
    requires told { Told e }
    requires told_2 { Told f }
    ensures { result ≡ sum_spectrum_of e b f c }
{
    if are_apart(b, c) {
        valid::told_hull(e, f)
    } else {
        valid::told_sum(extended(e, b, b | c), extended(f, c, b | c))
    }
}

// The spectrum of gg' over the set, g the slopes of the line i: 01's Sq.
pub(crate) fn of_square(t: &Table, set: u8, i: usize) -> Range
    requires { i < 64 }
    ensures { result ≡ square_spectrum_of set (gradient_at t.now i) }
{
    if is_single(set) {
        only_of(t, set, i).power(2)
    } else {
        Range::sum_of_squares(set, &t.numbers, slopes_of(i))
    }
}

// The spectrum of gh' + hg' over the set, g the slopes of the line i and h those of the line j: 01's Cross.
pub(crate) fn of_cross(t: &Table, set: u8, i: usize, j: usize) -> Range
    requires i_bound { i < 64 }
    requires j_bound { j < 64 }
    ensures { result ≡ cross_spectrum_of set (gradient_at t.now i) (gradient_at t.now j) }
{
    if is_single(set) {
        only_of(t, set, i).product(only_of(t, set, j)).times(2)
    } else {
        Range::cross(set, &t.numbers, slopes_of(i), slopes_of(j))
    }
}
