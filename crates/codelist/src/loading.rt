// Loading (01's refusals 3 to 7, 02's refusals 15 and 17): the year, the conditions on the numbers of a line, its operation, and the operation lines one
// after another.
ghost use Rattle.std.specs.Prelude.{◌≡◌, [], ◌≤◌, ◌-◌};
ghost use Rattle.codelist.specs.Conditions.{refers_back, exponent_fits, constant_fits, multiplier_fits};
ghost use Rattle.codelist.specs.Text.{year_of};
ghost use Rattle.codelist.specs.Views.{text_line, year_field, of_year, Fits};
ghost use Rattle.codelist.specs.Load.{in_full, op_of, checked_of, operation_lines};

use super::lines::Line;
use super::{Codelist, Entry, LIMIT, MOST_LINES, Numeral, Op, Refusal, Year, lines};

// 17: absent or 2016, and 2014, are years, and no other numeral is.
pub(crate) fn year_of(field: Option<Numeral>) -> Option<Year>
    ensures { of_year result ≡ year_of (year_field field) }
{
    match field {
        None => Some(Year::Y2016),
        Some(w) if w.negative => None,
        Some(w) => match w.magnitude {
            2016 => Some(Year::Y2016),
            2014 => Some(Year::Y2014),
            _ => None,
        },
    }
}

impl Line {
    // 5: every reference of a line is to one of the `earlier` codelist lines before it.
    fn refers_back(self, earlier: u64) -> bool
        ensures { result ≡ refers_back earlier (text_line self) }
    {
        match self {
            Line::Add(i, j) | Line::Mul(i, j) => {
                i.is_between(1, earlier) && j.is_between(1, earlier)
            }
            Line::AddC(i, _) | Line::MulC(i, _) | Line::Pow(i, _) | Line::Inv(i) => {
                i.is_between(1, earlier)
            }
        }
    }

    // 6: an exponent is 2 to 8.
    fn exponent_fits(self) -> bool
        ensures { result ≡ exponent_fits (text_line self) }
    {
        match self {
            Line::Pow(_, m) => m.is_between(2, 8),
            _ => true,
        }
    }

    // 7: a constant is not beyond the limit.
    fn constant_fits(self) -> bool
        ensures { result ≡ constant_fits (text_line self) }
    {
        match self {
            Line::AddC(_, c) | Line::MulC(_, c) => c.magnitude <= LIMIT,
            _ => true,
        }
    }

    // 15: no line multiplies by 0.
    fn multiplier_fits(self) -> bool
        ensures { result ≡ multiplier_fits (text_line self) }
    {
        match self {
            Line::MulC(_, c) => 1 <= c.magnitude,
            _ => true,
        }
    }

    // The operation of a line that keeps the rules.
    fn op(self) -> Op
        requires { Fits (text_line self) }
        ensures { result ≡ op_of (text_line self) }
    {
        match self {
            Line::Add(i, j) => Op::Add(small(i), small(j)),
            Line::Mul(i, j) => Op::Mul(small(i), small(j)),
            Line::AddC(i, c) => Op::AddC(small(i), c.value()),
            Line::MulC(i, c) => Op::MulC(small(i), c.value()),
            Line::Pow(i, m) => Op::Pow(small(i), small(m)),
            Line::Inv(i) => Op::Inv(small(i)),
        }
    }

    // The line at a text line, with `earlier` codelist lines before it: 5, then 6, then 7, then 15.
    fn checked(self, place: u64, earlier: u64) -> Result<Op, Refusal>
        requires { earlier ≤ 64 }
        ensures { result ≡ checked_of place earlier (text_line self) }
    {
        if !self.refers_back(earlier) {
            return Err(Refusal::Reference(place));
        }
        if !self.exponent_fits() {
            return Err(Refusal::Exponent(place));
        }
        if !self.constant_fits() {
            return Err(Refusal::Constant(place));
        }
        if !self.multiplier_fits() {
            return Err(Refusal::ZeroMultiplier(place));
        }
        Ok(self.op())
    }
}

// A numeral that is no greater than 255.
fn small(w: Numeral) -> u8
    requires { w.magnitude ≤ 255 }
    ensures { result ≡ w.magnitude }
{
    w.magnitude as u8
}

// The operation lines of a codelist with a year and n factors.
pub(crate) fn operation_lines(s: &[u8], year: Year, n: u8) -> Result<Codelist, Refusal>
    requires { n ≤ 8 }
    ensures { in_full result ≡ operation_lines year n (64 - n) [] s.now }
{
    let mut ops = [Entry { op: Op::Inv(0) }; 64];
    let mut count: u8 = 0;
    let mut rest = s;
    while !rest.is_empty() {
        let place = u64::from(count) + 2;
        let (line, t) = lines::operation_line(rest).ok_or(Refusal::Malformed(place))?;
        let earlier = n + count;
        if MOST_LINES <= earlier {
            return Err(Refusal::TooManyLines(place));
        }
        let op = line.checked(place, u64::from(earlier))?;
        ops[usize::from(count)] = Entry { op };
        count += 1;
        rest = t;
    }
    if count == 0 {
        return Err(Refusal::NoOperation);
    }
    Ok(Codelist {
        factors: n,
        count,
        year,
        ops,
    })
}
