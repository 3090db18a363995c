// Whether both boats are of the class: each value in its factor's range.
ghost use Rattle.std.specs.Prelude.{◌≡◌, ◌*◌, ◌≤◌, length};
ghost use Rattle.bounds.specs.FirstBad.{or_none};
ghost use Rattle.rules.specs.Rate.{pairs};
ghost use Rattle.increments.specs.Call as Call;

use range::Range;

// Whether a value is in a range.
#[tactic(auto, unfolding(crate::specs::Call::holds))]
fn holds(r: Range, x: i64) -> bool
    ensures { result ≡ Call.holds r x }
{
    (r.low..=r.high).contains(&x)
}

// The lowest factor, counted from 1, of which a boat's value is outside the range.
pub(crate) fn first_outside(ranges: &[i64], boats: &[i64], n: usize) -> Option<u8>
    requires n_bound { n ≤ 8 }
    requires ranges_len { length (pairs ranges.now) ≡ n }
    requires boats_len { length boats.now ≡ 2 * n }
    ensures { result ≡ or_none (Call.first_outside n (pairs ranges.now) boats.now) }
{
    // By the factor, which is the answer: its range and the two boats' values stand in two lists, as the caller lends them.
    for a in 0..n {
        let r = Range::new(ranges[2 * a], ranges[2 * a + 1]);
        let (first, second) = (boats[a], boats[n + a]);
        if !(holds(r, first) && holds(r, second)) {
            return Some(a as u8 + 1);
        }
    }
    None
}
