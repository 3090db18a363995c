// A range widened at its high end, and what rating then says.
ghost use Rattle.std.specs.Prelude.{◌≡◌, ◌≤◌, length, take};
ghost use Rattle.margin.specs.Edge as Edge;
ghost use Rattle.margin.specs.Search.{Rateable, Widenable};
ghost use Rattle.margin.specs.Promises.{Factor};

use codelist::Codelist;

// The ranges with w units added to the high end of the factor a, counted from 1, and 0 behind them.
// Sixteen numbers, as many as eight factors have, of which as many count as the caller lent: no library allocates.
fn wider(ranges: &[i64], a: u8, w: u8) -> [i64; 16]
    requires { Widenable ranges.now a }
    ensures { take (length ranges.now) result ≡ Edge.wider ranges.now a w }
{
    let mut out = [0i64; 16];
    out[..ranges.len()].copy_from_slice(ranges);
    out[2 * usize::from(a) - 1] += i64::from(w);
    out
}

// Whether plain rating is refused after the widening, or the value's high end passes the ceiling.
pub(crate) fn moves(c: Codelist, ranges: &[i64], a: u8, w: u8, ceiling: i64) -> bool
    requires rateable { Rateable c ranges.now }
    requires factor { Factor c a }
    ensures { result ≡ Edge.moves c ranges.now ceiling a w }
{
    let ends = wider(ranges, a, w);
    match bounds::rate(c, &ends[..ranges.len()]) {
        Ok(limits) => ceiling < limits.value.high,
        Err(_) => true,
    }
}
