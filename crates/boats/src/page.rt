// The walk over the boats of a page, in either form.
ghost use Rattle.std.specs.Prelude.{◌≡◌, List, ℤ, map};
ghost use Rattle.boats.specs.Fleet.{fleet_of, in_full};

use super::{Boat, MOST_BOATS, Refusal, Report, totals};
use engine::Engine;

// A record of eight numbers.
pub(crate) trait Record {
    ghost numbers_of: { Self → List ℤ };

    fn numbers(&self) -> [i64; 8]
        ensures { result ≡ numbers_of self.now };
}

impl Record for Boat {
    ghost numbers_of = { λ b. b.numbers };

    fn numbers(&self) -> [i64; 8] {
        self.numbers
    }
}

impl Record for [i64; 8] {
    ghost numbers_of = { λ b. b };

    fn numbers(&self) -> [i64; 8] {
        *self
    }
}

// The page of records: first 10, then 14, then the report.
pub(crate) fn of_records<R: Record>(engine: Engine, records: &[R]) -> Result<Report, Refusal>
    ensures { in_full result ≡ fleet_of engine (map R.numbers_of records.now) }
{
    if !codelist::is_ratable(engine.codelist) {
        return Err(Refusal::NoCodelist);
    }
    if MOST_BOATS < records.len() {
        return Err(Refusal::Boats);
    }
    let mut sum = totals::START;
    for (k, record) in records.iter().enumerate() {
        sum = totals::with_boat(engine, k, sum, record.numbers());
    }
    Ok(sum.report)
}
