// The running total over the boats.
ghost use Rattle.std.specs.Prelude.{◌≡◌, true, ◌<◌};
ghost use Rattle.range.specs.Limit.{is_valid};
ghost use Rattle.boats.specs.Walk.{with_value, with_number, with_boat, Held};

use super::{Report, rating};
use engine::Engine;
use range::Range;

// The report so far, and the greatest high end. Where no boat is accepted yet, `greatest` is 0, as in the report, and `top` is no high end.
// So `top` is no option: `greatest` tells whether there is one.
#[derive(Clone, Copy)]
pub(crate) struct Sum {
    pub report: Report,
    pub top: i64,
}

// The total of no boats.
pub(crate) const START: Sum = Sum {
    report: Report {
        accepted: 0,
        range: 0,
        divisor: 0,
        limit: 0,
        low: 0,
        high: 0,
        greatest: 0,
    },
    top: 0,
};

// The total with the boat at k, from 0, that is accepted with this value.
fn with_value(k: usize, sum: Sum, value: Range) -> Sum
    requires k_bound { (k < 1000) × Held k sum }
    requires value_value { is_valid value ≡ true }
    ensures { result ≡ with_value k sum value }
{
    let report = Report {
        accepted: sum.report.accepted + 1,
        low: sum.report.low + value.low,
        high: sum.report.high + value.high,
        ..sum.report
    };
    if sum.report.greatest == 0 || sum.top < value.high {
        Sum {
            report: Report {
                greatest: k as u64 + 1,
                ..report
            },
            top: value.high,
        }
    } else {
        Sum { report, ..sum }
    }
}

// The report with a boat that is refused with this number.
// By the number, as the page counts them: 02 names 9, 11 and 12. `Held` grows with k, so that no type can have it.
fn with_number(k: usize, sum: Sum, number: u8) -> Report
    requires { (k < 1000) × Held k sum }
    ensures { result ≡ with_number sum.report number }
{
    let report = sum.report;
    match number {
        9 => Report {
            range: report.range + 1,
            ..report
        },
        11 => Report {
            divisor: report.divisor + 1,
            ..report
        },
        12 => Report {
            limit: report.limit + 1,
            ..report
        },
        _ => report,
    }
}

// The total with the boat at k, from 0.
pub(crate) fn with_boat(engine: Engine, k: usize, sum: Sum, boat: [i64; 8]) -> Sum
    requires { (k < 1000) × Held k sum }
    ensures { result ≡ with_boat engine k sum boat }
{
    match rating::of_boat(engine, boat) {
        Ok(limits) => with_value(k, sum, limits.value),
        Err(r) => Sum {
            report: with_number(k, sum, r.number()),
            ..sum
        },
    }
}
