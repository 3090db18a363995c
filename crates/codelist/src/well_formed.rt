// Well formed operations (01, "The sheet"): their references and constants.
ghost use Rattle.std.specs.Prelude.{◌≡◌};
ghost use Rattle.codelist.specs.Codelist.{is_earlier, is_constant};

use super::LIMIT;

// The limit with either sign.
const MOST_CONSTANT: i64 = LIMIT as i64;

const LEAST_CONSTANT: i64 = -MOST_CONSTANT;

// Whether a reference is to one of the `earlier` codelist lines.
pub(crate) fn is_earlier(earlier: u64, i: u8) -> bool
    ensures { result ≡ is_earlier earlier i }
{
    (1..=earlier).contains(&u64::from(i))
}

// Whether a constant is within the limit.
pub(crate) fn is_constant(c: i64) -> bool
    ensures { result ≡ is_constant c }
{
    (LEAST_CONSTANT..=MOST_CONSTANT).contains(&c)
}
