// Digits and numerals of the text (01, "The sheet"): what stands at its front, with the rest of it.
ghost use Rattle.std.specs.Prelude.{◌≡◌, ◌<◌, drop};
ghost use Rattle.codelist.specs.Read.{peek, digit, digits, positive, numeral, good, read_of};
ghost use Rattle.codelist.specs.Views.{next_digit};

use super::Numeral;

// The most digits that follow the first one.
const FURTHER: u64 = 9;

const ZERO: u64 = 48;

const NINE: u64 = 57;

// Two public functions give numbers as `peek` and `digit` have them, and no `Option`: 256 is no byte, and 10 is no digit.

// The byte at a place of the text, and 256 past its end.
pub fn byte_at(s: &[u8], at: usize) -> u64
    ensures { result ≡ peek (drop at s.now) }
{
    if at < s.len() { u64::from(s[at]) } else { 256 }
}

// The value of the digit at a place, and 10 where there is none.
pub fn digit_at(s: &[u8], at: usize) -> u64
    ensures { result ≡ digit (peek (drop at s.now)) }
{
    let b = byte_at(s, at);
    if b < ZERO {
        return 10;
    }
    if b <= NINE { b - ZERO } else { 10 }
}

// A digit at the front.
// `formulas` has one like it, since this is private to numerals, and `digit_at` gives no rest.
fn next_digit(s: &[u8]) -> Option<(u64, &[u8])>
    ensures { read_of result ≡ next_digit s.now }
{
    let (b, rest) = s.split_first()?;
    match *b {
        b @ b'0'..=b'9' => Some((u64::from(b - b'0'), rest)),
        _ => None,
    }
}

// At most nine further digits, after one with the value `first`.
fn more_digits(s: &[u8], negative: bool, first: u64) -> (Numeral, &[u8])
    requires { first < 10 }
    ensures { good result.0 result.1.now ≡ digits 9 negative first s.now }
{
    let mut rest = s;
    let mut magnitude = first;
    for _ in 0..FURTHER {
        let Some((d, t)) = next_digit(rest) else {
            break;
        };
        magnitude = magnitude * 10 + d;
        rest = t;
    }
    (
        Numeral {
            negative,
            magnitude,
        },
        rest,
    )
}

// Digits of which the first is not 0.
fn positive(s: &[u8], negative: bool) -> Option<(Numeral, &[u8])>
    ensures { read_of result ≡ positive negative s.now }
{
    let (first, rest) = next_digit(s)?;
    if first == 0 {
        return None;
    }
    Some(more_digits(rest, negative, first))
}

// `0`, or digits of which the first is not 0, after a minus at will.
pub(crate) fn numeral(s: &[u8]) -> Option<(Numeral, &[u8])>
    ensures { read_of result ≡ numeral s.now }
{
    match s.split_first()? {
        (b'-', rest) => positive(rest, true),
        (b'0', rest) => Some((
            Numeral {
                negative: false,
                magnitude: 0,
            },
            rest,
        )),
        _ => positive(s, false),
    }
}
