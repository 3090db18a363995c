// The run over the lines of a codelist, wherever its operations lie, and the refusals of rating.
ghost use Rattle.std.specs.Prelude.{◌≡◌, true, ℕ, ◌+◌, ◌-◌, ◌≤◌, ◌<◌, length, get_or, Some};
ghost use Rattle.range.specs.Limit.{zero_range};
ghost use Rattle.range.specs.Arithmetic.{holds_zero};
ghost use Rattle.codelist.specs.declared.Codelist.{Codelist};
ghost use Rattle.codelist.specs.declared.Op.{Op};
ghost use Rattle.codelist.specs.Codelist.{WellFormedOp};
ghost use Rattle.rules.specs.Run.{each_valid, row_of, inverts_zero, bent_in, factor_lines};
ghost use Rattle.rules.specs.Rate.{in_full, limits_of, pairs, rate_of};
ghost use Rattle.bounds.specs.Terms.{Fine};
ghost use Rattle.bounds.specs.Table.{gradient_at, line_at, lines_up_to, Ready, Worked, Started};
ghost use Rattle.bounds.specs.Answer.{Counted, IsOf, Lies, in_order};

use super::table::Table;
use super::{rows, spectrum};
use codelist::{Codelist, Op, Year};
use encoding::Front;
use range::Range;
use rules::{Limits, Refusal};

// The result is that of the line k, whose slopes are given, with its spectrum extended to all n factors besides.
fn result(t: &Table, n: u8, k: usize, gradient: [Range; 8]) -> Limits
    requires n_bound { n ≤ 8 }
    requires k_bound { k < 64 }
    requires gradient_value { gradient ≡ gradient_at t.now k }
    ensures { result ≡ limits_of n (line_at t.now k) }
{
    let spectrum = t.spectrum(k);
    let nonlinear = t.nonlinear(k);
    Limits {
        value: t.value(k),
        gradient,
        support: t.support(k),
        nonlinear,
        spectrum,
        full: spectrum::extended(spectrum, nonlinear, spectrum::all_of(n)),
    }
}

// low ≤ 0 ≤ high.
fn holds_zero(r: Range) -> bool
    ensures { result ≡ holds_zero r }
{
    (r.low <= 0) & (0 <= r.high)
}

// The range of the factor a, counted from 0.
pub(crate) fn range_at(xs: &[i64], a: usize) -> Range
    requires { a < length (pairs xs.now) }
    ensures { result ≡ get_or (pairs xs.now) a zero_range }
{
    Range::new(xs[2 * a], xs[2 * a + 1])
}

// Where the codelist line i, counted from 1, stands in the table.
fn index(i: u8) -> usize
    requires { (1 ≤ i) × (i ≤ 64) }
    ensures { (result ≡ i - 1) × (result < 64) }
{
    i as usize - 1
}

// The factors that every line is bent in: none, or, in 2014, all (02, request 9). The one place where the year is looked at.
fn bent_in(year: Year, n: u8) -> u8
    requires { n ≤ 8 }
    ensures { result ≡ bent_in year n }
{
    match year {
        Year::Y2016 => 0,
        Year::Y2014 => spectrum::all_of(n),
    }
}

// The lines of the n factors, with the bent set b. What is given back is the slopes of the last.
fn start(t: &mut Table, xs: &[i64], b: u8, n: usize) -> [Range; 8]
    requires ready { Ready t.old 0 }
    requires xs_len { length (pairs xs.now) ≡ n }
    requires le_n { (1 ≤ n) × (n ≤ 8) }
    requires xs_value { each_valid (pairs xs.now) ≡ true }
    ensures started { Started (factor_lines b 0 (pairs xs.now)) n t.new }
    ensures value { result ≡ gradient_at t.new (n - 1) }
{
    let mut last = [Range::ZERO; 8];
    // By the factor, whose line it is.
    for a in 0..n {
        last = rows::factor(t, b, a, range_at(xs, a));
    }
    last
}

// Refusal 11: whether the operation inverts a range that holds 0.
fn inverts_zero(t: &Table, op: Op, k: usize) -> bool
    requires well_formed_op { WellFormedOp k op }
    requires k_bound { k < 64 }
    ensures { result ≡ inverts_zero op (lines_up_to t.now k) }
{
    match op {
        Op::Inv(i) => holds_zero(t.value(index(i))),
        Op::Add(_, _) | Op::Mul(_, _) | Op::AddC(_, _) | Op::MulC(_, _) | Op::Pow(_, _) => false,
    }
}

// The line k, counted from 0, of its operation. The answer is its slopes, if all its ranges are valid.
fn work(t: &mut Table, op: Op, k: usize) -> Option<[Range; 8]>
    requires well_formed_op { WellFormedOp k op }
    requires ready { Ready t.old k }
    requires k_bound { k < 64 }
    ensures { Worked (row_of op (lines_up_to t.old k)) t.old k result t.new }
{
    match op {
        Op::Add(i, j) => rows::add(t, index(i), index(j), k),
        Op::Mul(i, j) => rows::mul(t, index(i), index(j), k),
        Op::AddC(i, c) => rows::addc(t, index(i), c, k),
        Op::MulC(i, c) => rows::mulc(t, index(i), c, k),
        Op::Pow(i, m) => rows::pow(t, index(i), m, k),
        Op::Inv(i) => rows::inv(t, index(i), k),
    }
}

// Rating: 10, 8, 9 (lowest factor), then the lines of the factors and of the operations, in order, 11 before 12. The closure gives the operation
// of a line, if it is well formed: each is tested just before its line is worked out, which spares a pass over the codelist. So a refusal may
// come before an operation that is not well formed, and whoever calls tests them all then.
pub(crate) fn rate<F: Fn(usize) -> Option<Op>>(
    front: Front,
    xs: &[i64],
    op_at: F,
) -> Result<Limits, Refusal>
    requires counted { Counted front }
    requires callable { (k : ℕ) → IsOf k front → F.pre op_at k }
    requires well_formed { (k : ℕ) (o : Op) → IsOf k front → F.post op_at k (Some o) → WellFormedOp k o }
    ensures { (c : Codelist) → Lies c front (F.post op_at) → in_order c result ≡ rate_of c xs.now }
{
    let n = front.factors as usize;
    if xs.len() != 2 * n {
        return Err(Refusal::RangeCount);
    }
    if let Some(a) = super::first_bad(xs) {
        return Err(Refusal::BadRange(a as u8));
    }
    let mut t = Table::empty();
    let mut last = start(&mut t, xs, bent_in(front.year, front.factors), n);
    let end = n + front.count as usize;
    for k in n..end {
        let op = op_at(k).ok_or(Refusal::NoCodelist)?;
        if inverts_zero(&t, op, k) {
            return Err(Refusal::Divisor(k as u8 + 1));
        }
        last = work(&mut t, op, k).ok_or(Refusal::Overflow(k as u8 + 1))?;
    }
    Ok(result(&t, front.factors, end - 1, last))
}

// Rating over a codelist value.
pub(crate) fn answer(c: Codelist, xs: &[i64]) -> Result<Limits, Refusal>
    ensures { in_full result ≡ rate_of c xs.now }
{
    let n = c.factors as usize;
    let count = c.count as usize;
    if !((1 <= n) & (n <= 8) & (1 <= count) & (n + count <= 64)) {
        return Err(Refusal::NoCodelist);
    }
    let front = Front {
        factors: c.factors,
        count: c.count,
        year: c.year,
    };
    rate(front, xs, |k| {
        let op = c.ops[k - n].op;
        codelist::is_op_well_formed(k as u64, op).then_some(op)
    })
    .map_err(|r| {
        if codelist::is_ratable(c) {
            r
        } else {
            Refusal::NoCodelist
        }
    })
}
