// What the program prints of a result and of a refusal, put into lent bytes of any length: the crate's functions by these names. A `Text` has its own
// bytes, and what is put there stands beside in printing.rt.
ghost use Rattle.std.specs.Prelude.{◌≡◌};
ghost use Rattle.writer.specs.Lent.{lent, put_text};
ghost use Rattle.text.specs.Output.{natural_field, whole_field, range_fields, slope_lines, set_fields, limits_text, refusal_text};

use engine::Refusal;
use range::Range;
use rules::Limits;

// A tab and a number.
fn natural_field(bytes: &mut [u8], at: usize, number: u64) -> usize
    ensures { lent bytes.new result ≡ put_text (lent bytes.old at) (natural_field number) }
{
    let parted = writer::byte(bytes, at, b'\t');
    writer::natural(bytes, parted, number)
}

// A tab and a number with its sign.
fn whole_field(bytes: &mut [u8], at: usize, x: i64) -> usize
    ensures { lent bytes.new result ≡ put_text (lent bytes.old at) (whole_field x) }
{
    let parted = writer::byte(bytes, at, b'\t');
    writer::whole(bytes, parted, x)
}

/// The low and the high of a range, and the line's end.
pub fn range_fields(bytes: &mut [u8], at: usize, x: Range) -> usize
    ensures { lent bytes.new result ≡ put_text (lent bytes.old at) (range_fields x) }
{
    let low = whole_field(bytes, at, x.low);
    let high = whole_field(bytes, low, x.high);
    writer::byte(bytes, high, b'\n')
}

// The slopes of the first n factors. There are eight: of a further one it is zero.
fn slope_lines(bytes: &mut [u8], at: usize, n: u8, gradient: [Range; 8]) -> usize
    ensures { lent bytes.new result ≡ put_text (lent bytes.old at) (slope_lines n gradient) }
{
    let mut to = at;
    for a in 0..n {
        let begun = writer::word(bytes, to, b"slope");
        let numbered = natural_field(bytes, begun, u64::from(a) + 1);
        let slope = gradient.get(usize::from(a)).copied().unwrap_or(Range::ZERO);
        to = range_fields(bytes, numbered, slope);
    }
    to
}

// The factors of a set, rising, and the line's end.
fn set_fields(bytes: &mut [u8], at: usize, set: u8) -> usize
    ensures { lent bytes.new result ≡ put_text (lent bytes.old at) (set_fields set) }
{
    let mut to = at;
    for a in 0..8u8 {
        if (set >> a) % 2 == 1 {
            to = natural_field(bytes, to, u64::from(a) + 1);
        }
    }
    writer::byte(bytes, to, b'\n')
}

/// The text of a result for n factors.
pub fn limits(bytes: &mut [u8], at: usize, n: u8, l: Limits) -> usize
    ensures { lent bytes.new result ≡ put_text (lent bytes.old at) (limits_text n l) }
{
    let mut to = writer::word(bytes, at, b"value");
    to = range_fields(bytes, to, l.value);
    to = slope_lines(bytes, to, n, l.gradient);
    to = writer::word(bytes, to, b"depends");
    to = set_fields(bytes, to, l.support);
    to = writer::word(bytes, to, b"bent");
    to = set_fields(bytes, to, l.nonlinear);
    to = writer::word(bytes, to, b"bend");
    to = range_fields(bytes, to, l.spectrum);
    to = writer::word(bytes, to, b"full");
    range_fields(bytes, to, l.full)
}

/// The text of a refusal.
pub fn refusal(bytes: &mut [u8], at: usize, why: Refusal) -> usize
    ensures { lent bytes.new result ≡ put_text (lent bytes.old at) (refusal_text why) }
{
    writer::refusal(bytes, at, u64::from(why.number()), why.place())
}
