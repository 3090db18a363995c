// The rating of one boat: a class of one point, with both ends of every range at its value.
ghost use Rattle.std.specs.Prelude.{◌≡◌};
ghost use Rattle.engine.specs.Engine.{in_full};
ghost use Rattle.boats.specs.Boats.{doubled, boat_rating};

use engine::{Engine, Refusal};
use rules::Limits;

// The numbers, each twice: both ends of its range.
fn twice(b: [i64; 8]) -> [i64; 16]
    ensures { result ≡ doubled b }
{
    let mut ends = [0i64; 16];
    // By the number's place, which its two ends have twice.
    for a in 0..8 {
        ends[2 * a] = b[a];
        ends[2 * a + 1] = b[a];
    }
    ends
}

// The rating of a boat, by the engine: the first n of its numbers are the ends of n factors.
pub(crate) fn of_boat(engine: Engine, boat: [i64; 8]) -> Result<Limits, Refusal>
    ensures { in_full result ≡ boat_rating engine boat }
{
    let ranges = twice(boat);
    let end = (2 * usize::from(engine.codelist.factors)).min(16);
    engine.rate(&ranges[..end])
}
