// The run over the lines of a codelist that lies in lent bytes: each operation is read where it lies, just before its line is worked out.
ghost use Rattle.std.specs.Prelude.{◌≡◌};
ghost use Rattle.encoding.specs.Decode.{lent_codelist};
ghost use Rattle.rules.specs.Rate.{in_full, rate_of};

use super::run;
use rules::{Limits, Refusal};

pub(crate) fn answer(state: &[u8], xs: &[i64]) -> Result<Limits, Refusal>
    ensures { in_full result ≡ rate_of (lent_codelist state.now) xs.now }
{
    let front = encoding::head(state).ok_or(Refusal::NoCodelist)?;
    let n = front.factors as usize;
    run::rate(front, xs, |k| encoding::op_at(state, k - n, k as u64)).map_err(|r| {
        if encoding::holds_codelist(state) {
            r
        } else {
            Refusal::NoCodelist
        }
    })
}
