// Two boats of one class (02, request 7): from the slopes of the class's limits, how far apart their premiums may be. All values are in units.
#![tactic(auto)]

ghost use Rattle.std.specs.Prelude.{◌≡◌};
ghost use Rattle.increments.specs.Call.{sisters_of, in_full};

use engine::{Engine, Refusal};
use range::Range;

mod class; // class.rt: whether both boats are of the class
mod total; // total.rt: the sums of the products

// Between which two numbers the second boat's premium less the first one's lies. `boats` has the values of the first boat, one per factor, and then
// those of the second. The class's refusals come first, then 8 and 9 of the boats.
pub fn sisters(engine: Engine, ranges: &[i64], boats: &[i64]) -> Result<Range, Refusal>
    ensures { in_full result ≡ sisters_of engine ranges.now boats.now }
{
    let limits = engine.rate(ranges)?;
    let n = usize::from(engine.codelist.factors);
    if boats.len() != 2 * n {
        return Err(Refusal::Rate(rules::Refusal::RangeCount));
    }
    if let Some(a) = class::first_outside(ranges, boats, n) {
        return Err(Refusal::Rate(rules::Refusal::BadRange(a)));
    }
    Ok(total::difference(limits.gradient, boats, n))
}
