// What the program prints of a result and of a refusal, put into a `Text`.
ghost use Rattle.std.specs.Prelude.{◌≡◌};
ghost use Rattle.writer.specs.Lent.{put_text};
ghost use Rattle.text.specs.Output.{natural_field, whole_field, range_fields, slope_lines, set_fields, limits_text, refusal_text};

use super::Text;
use engine::Refusal;
use range::Range;
use rules::Limits;

// A tab and a number.
fn natural_field(out: &mut Text, number: u64)
    ensures { out.new ≡ put_text out.old (natural_field number) }
{
    out.byte(b'\t');
    out.natural(number);
}

// A tab and a number with its sign.
fn whole_field(out: &mut Text, x: i64)
    ensures { out.new ≡ put_text out.old (whole_field x) }
{
    out.byte(b'\t');
    out.whole(x);
}

/// The low and the high of a range, and the line's end.
pub fn range_fields(out: &mut Text, x: Range)
    ensures { out.new ≡ put_text out.old (range_fields x) }
{
    whole_field(out, x.low);
    whole_field(out, x.high);
    out.byte(b'\n');
}

// The slopes of the first n factors. There are eight: of a further one it is zero.
fn slope_lines(out: &mut Text, n: u8, gradient: [Range; 8])
    ensures { out.new ≡ put_text out.old (slope_lines n gradient) }
{
    // By the factor, whose number is printed.
    for a in 0..n {
        out.word(b"slope");
        natural_field(out, u64::from(a) + 1);
        range_fields(
            out,
            gradient.get(usize::from(a)).copied().unwrap_or(Range::ZERO),
        );
    }
}

// The factors of a set, rising, and the line's end.
fn set_fields(out: &mut Text, set: u8)
    ensures { out.new ≡ put_text out.old (set_fields set) }
{
    for a in 0..8u8 {
        if (set >> a) % 2 == 1 {
            natural_field(out, u64::from(a) + 1);
        }
    }
    out.byte(b'\n');
}

/// The text of a result for n factors.
pub fn limits(out: &mut Text, n: u8, l: Limits)
    ensures { out.new ≡ put_text out.old (limits_text n l) }
{
    out.word(b"value");
    range_fields(out, l.value);
    slope_lines(out, n, l.gradient);
    out.word(b"depends");
    set_fields(out, l.support);
    out.word(b"bent");
    set_fields(out, l.nonlinear);
    out.word(b"bend");
    range_fields(out, l.spectrum);
    out.word(b"full");
    range_fields(out, l.full);
}

/// The text of a refusal.
pub fn refusal(out: &mut Text, why: Refusal)
    ensures { out.new ≡ put_text out.old (refusal_text why) }
{
    out.refusal(u64::from(why.number()), why.place());
}
