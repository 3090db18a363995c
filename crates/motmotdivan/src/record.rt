// The record of ranges, sixteen doubles in 128 bytes, and the record of a result, twenty-four in 192.
ghost use Rattle.std.specs.Prelude.{◌≡◌, ◌≤◌, [], ◌∷◌, length};
ghost use Rattle.motmotdivan.specs.Record.{ends_of, doubles_of, result_record};
ghost use Rattle.motmotdivan.specs.Views.{HoldsBytes, Converted};

use super::doubles;
use range::Range;
use rules::Limits;

pub(crate) const RANGES_LENGTH: usize = 128;

pub(crate) const RESULT_LENGTH: usize = 192;

// "a struct holding an array of f64", of the ranges' ends.
#[derive(Clone, Copy)]
pub struct Record {
    pub cells: [f64; 16],
}

// The record of 128 bytes, as far as the first m doubles: the others are ignored.
fn record_of(s: &[u8], m: usize) -> Record
    requires s_len { length s.now ≡ 128 }
    requires m_bound { m ≤ 16 }
    ensures { HoldsBytes s.now m result }
{
    let (doubles, _) = s.as_chunks::<8>();
    let mut record = Record { cells: [0.0; 16] };
    // By the cell: the first m of the sixteen are read.
    for k in 0..m {
        record.cells[k] = doubles::finite(doubles[k]);
    }
    record
}

// The first doubles as numbers, up to the first that is no whole number: refused then is its factor, from 1. The numbers are lent, since an array by value is
// copied at each step on its way.
pub(crate) fn numbers_of(s: &[u8], values: &mut [i64]) -> Result<(), u64>
    requires s_len { length s.now ≡ 128 }
    requires values_bound { length values.old ≤ 16 }
    ensures { Converted s.now values.new (length values.old) result }
{
    let record = record_of(s, values.len());
    // By the cell, which is the place of a refusal.
    for k in 0..values.len() {
        let Some(z) = doubles::whole_of(record.cells[k]) else {
            return Err(k as u64 / 2 + 1);
        };
        values[k] = z;
    }
    Ok(())
}

// The ends of a range, low before high, in sixteen bytes. Inlined: as eleven calls it took twice the instructions.
#[inline(always)]
fn put_range(s: &mut [u8], r: Range)
    requires { length s.old ≡ 16 }
    ensures { s.new ≡ doubles_of (ends_of (r ∷ [])) }
{
    s[..8].copy_from_slice(&doubles::bytes_of(r.low));
    s[8..].copy_from_slice(&doubles::bytes_of(r.high));
}

// The record of a result, in its order: value, eight slopes, the two sets, bend, full.
pub(crate) fn put_result(s: &mut [u8], l: &Limits)
    requires { length s.old ≡ 192 }
    ensures { s.new ≡ result_record l.now }
{
    put_range(&mut s[..16], l.value);
    // By the factor: its two doubles stand 16 · k behind the value's.
    for k in 0..8 {
        put_range(&mut s[16 + 16 * k..32 + 16 * k], l.gradient[k]);
    }
    s[144..152].copy_from_slice(&doubles::bytes_of(i64::from(l.support)));
    s[152..160].copy_from_slice(&doubles::bytes_of(i64::from(l.nonlinear)));
    put_range(&mut s[160..176], l.spectrum);
    put_range(&mut s[176..], l.full);
}
