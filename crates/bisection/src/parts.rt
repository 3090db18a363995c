// The parts: "each half is then treated in the same way with one depth fewer".
ghost use Rattle.std.specs.Prelude.{◌≡◌};
ghost use Rattle.rules.specs.Rate.{in_full};
ghost use Rattle.bisection.specs.Cut as Cut;
ghost use Rattle.bisection.specs.Box.{box_of, BoxOf};

use super::{cut, hull};
use codelist::Codelist;
use rules::{Limits, Refusal};

// The least width that is cut, in units.
const LEAST_CUT: i64 = 2;

// The recursion: the depth falls, and the limits are hulled on the way back. "A refusal of the lower half comes before one of the upper." Plain rating is
// called from one place, and not by a function of its own: each call copies the codelist.
pub(crate) fn parts(c: Codelist, ends: [i64; 16], n: usize, depth: u8) -> Result<Limits, Refusal>
    requires { BoxOf c n ends }
    ensures { in_full result ≡ Cut.parts depth c (box_of n ends) }
{
    let k = cut::widest(&ends, n);
    let r = cut::range_at(&ends, k);
    if depth == 0 || cut::width(r) < LEAST_CUT {
        return bounds::rate(c, &ends[..2 * n]);
    }
    let m = cut::middle(r);
    let lower = parts(c, cut::with_end(ends, 2 * k + 1, m), n, depth - 1)?;
    let upper = parts(c, cut::with_end(ends, 2 * k, m), n, depth - 1)?;
    Ok(hull::limits(lower, upper))
}
