// Rating on the bytes of a class, up to the limits.
ghost use Rattle.std.specs.Prelude.{◌≡◌, if◌then◌else◌};
ghost use Rattle.encoding.specs.Decode.{holds_codelist};
ghost use Rattle.motmotdivan.specs.declared.codes.Refusal.TheVariants.{NoCodelist};
ghost use Rattle.motmotdivan.specs.Calls.{rate_answer};
ghost use Rattle.motmotdivan.specs.Views.{in_full};

use super::codes::Refusal;
use super::record;
use rules::Limits;

// A refusal that 10 comes before: the bytes are looked at first.
fn held(state: &[u8], refusal: Refusal) -> Refusal
    ensures { result ≡ (if holds_codelist state.now then refusal else NoCodelist) }
{
    if encoding::holds_codelist(state) {
        refusal
    } else {
        Refusal::NoCodelist
    }
}

// 10, 8, 18, then what rating gives. Whether the bytes hold a codelist is found out by rating itself, so that the bytes are read once; only where 8 or 18
// is to be given are they looked at before.
pub(crate) fn quoted(state: &[u8], ranges: &[u8], room: usize) -> Result<Limits, Refusal>
    ensures { in_full result ≡ rate_answer state.now ranges.now room }
{
    if state.len() != encoding::LENGTH {
        return Err(Refusal::NoCodelist);
    }
    let n = usize::from(state[0]);
    if n < 1 || 8 < n {
        return Err(Refusal::NoCodelist);
    }
    if ranges.len() != record::RANGES_LENGTH || room != record::RESULT_LENGTH {
        return Err(held(state, Refusal::Length));
    }
    let mut values = [0i64; 16];
    let ends = &mut values[..2 * n];
    if let Err(factor) = record::numbers_of(ranges, ends) {
        return Err(held(state, Refusal::Fraction(factor)));
    }
    Ok(bounds::rate_at(state, ends)?)
}
