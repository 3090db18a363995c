// Doubles that are whole numbers: read from eight bytes, converted exactly, and written.
ghost use Rattle.std.specs.Prelude.{◌≡◌, T, from_bits};
ghost use Rattle.std.specs.Float.{binary64};
ghost use Rattle.std.specs.Float.Ieee.{of_int};
ghost use Rattle.std.specs.Float.Ieee.Scale.{finite};
ghost use Rattle.encoding.specs.Bytes.{number_of};
ghost use Rattle.motmotdivan.specs.Doubles.{whole_of, double_of};
ghost use Rattle.motmotdivan.specs.Views.{Cell, clamped, finite_pattern};

// 2 ^ 53: up to it either way a whole number is a double exactly, and from it on every double is a whole number.
const EXACT: u64 = 1 << 53;

// What stands for a double that is not finite, since no f64 can be made of a NaN's pattern: no whole number either.
const HALF: f64 = 0.5;

// The whole number that a finite double is, if it is one: the nearest in 64 bits, so that one beyond the limit stays beyond it. Minus zero is equal to 0.
pub(crate) fn whole_of(x: f64) -> Option<i64>
    requires { T (finite x) }
    ensures { result ≡ clamped (whole_of x) }
{
    let n = std::num::saturating_f64_to_i64(x);
    if EXACT < n.unsigned_abs() {
        return Some(n);
    }
    (n as f64 == x).then_some(n)
}

// Whether a pattern is that of a finite double: its exponent is not all ones. Zeros of both signs are.
fn is_finite(bits: u64) -> bool
    ensures { result ≡ finite_pattern bits }
{
    bits % 0x8000_0000_0000_0000 < 0x7ff0_0000_0000_0000
}

// The double of eight bytes, the lowest first, as far as it is finite: the same whole number, or none.
pub(crate) fn finite(bytes: [u8; 8]) -> f64
    ensures { Cell (whole_of (from_bits binary64 (number_of bytes))) result }
{
    let bits = u64::from_le_bytes(bytes);
    if is_finite(bits) {
        f64::from_bits(bits)
    } else {
        HALF
    }
}

// A whole number as a double. Up to 2 ^ 53 the machine's own conversion is exact; no number of a result is beyond.
fn nearest(z: i64) -> f64
    ensures { result ≡ of_int binary64 z }
{
    if EXACT < z.unsigned_abs() {
        std::num::nearest_i64_to_f64(z)
    } else {
        z as f64
    }
}

// The same as eight bytes, the lowest first.
pub(crate) fn bytes_of(z: i64) -> [u8; 8]
    ensures { result ≡ double_of z }
{
    nearest(z).to_le_bytes()
}
