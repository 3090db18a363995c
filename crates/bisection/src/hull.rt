// The limits of two parts, hulled end by end.
ghost use Rattle.std.specs.Prelude.{◌≡◌};
ghost use Rattle.bisection.specs.Cut as Cut;

use range::Range;
use rules::Limits;

// The limits that hold those of both parts, whose sets are the same.
pub(crate) fn limits(l: Limits, m: Limits) -> Limits
    ensures { result ≡ Cut.hull_limits l m }
{
    // a loop, since no proof learns what `array::from_fn` gets from its closure at each place
    let mut gradient = [Range::ZERO; 8];
    for a in 0..8 {
        gradient[a] = l.gradient[a].ends_hull(m.gradient[a]);
    }
    Limits {
        value: l.value.ends_hull(m.value),
        gradient,
        spectrum: l.spectrum.ends_hull(m.spectrum),
        full: l.full.ends_hull(m.full),
        ..l
    }
}
