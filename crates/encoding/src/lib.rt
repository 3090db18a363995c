// A codelist as 512 bytes at fixed offsets (docs/STATE.md): a load writes them, and `head` and `op_at` read them back, whatever bytes they are.
#![tactic(auto)]

ghost use Rattle.std.specs.Prelude.{◌≡◌, ◌<◌, ◌≤◌, cond, Some, None, nat_abs, length};
ghost use Rattle.exact.specs.Units.{limit};
ghost use Rattle.codelist.specs.Codelist.{WellFormed};
ghost use Rattle.codelist.specs.Load.{load_of};
ghost use Rattle.encoding.specs.Encode.{shifted, fields, op_bytes, year_byte, encoded};
ghost use Rattle.encoding.specs.Bytes.{are_zero};
ghost use Rattle.encoding.specs.Decode.{counts_fit, is_year, year_of_byte, head_of, formed, op_at, are_ops, holds_codelist};
ghost use Rattle.encoding.specs.Load.{in_full, left_by};
ghost use Rattle.encoding.specs.Views.{Small};

use codelist::{Codelist, Op, Refusal, Year};

// The bytes of a codelist, and the most operations that they hold.
pub const LENGTH: usize = 512;

const MOST_OPS: usize = 63;

// "the constant plus 2,000,000,000"
const LIMIT: i64 = 2_000_000_000;

// What stands at the front of the bytes.
#[derive(Clone, Copy)]
pub struct Front {
    pub factors: u8,
    pub count: u8,
    pub year: Year,
}

// Whether all bytes are zero. An or of all of them, which takes many at a time, and no `all`, which stops at each one to look.
fn are_zero(s: &[u8]) -> bool
    ensures { result ≡ are_zero s.now }
{
    s.iter().fold(0, |all, b| all | *b) == 0
}

fn counts_fit(factors: u8, count: u8) -> bool
    ensures { result ≡ counts_fit factors count }
{
    (1..=8).contains(&factors) && 1 <= count && u64::from(factors) + u64::from(count) <= 64
}

// The year of its byte. A function, since `Year` is another crate's and so can't have a `TryFrom` here.
fn year_of(b: u8) -> Option<Year>
    ensures { result ≡ cond (is_year b) (Some (year_of_byte b)) None }
{
    match b {
        0 => Some(Year::Y2016),
        1 => Some(Year::Y2014),
        _ => None,
    }
}

// The first eight bytes, and the zeros behind the last operation.
#[tactic(auto, unfolding(crate::specs::Decode::head_of))]
pub fn head(state: &[u8]) -> Option<Front>
    ensures { result ≡ head_of state.now }
{
    if state.len() != LENGTH {
        return None;
    }
    let factors = state[0];
    let count = state[1];
    if !counts_fit(factors, count) {
        return None;
    }
    let year = year_of(state[2])?;
    if !are_zero(&state[3..8]) {
        return None;
    }
    let behind = 8 + 8 * usize::from(count);
    if !are_zero(&state[behind..]) {
        return None;
    }
    Some(Front {
        factors,
        count,
        year,
    })
}

// The operation of its eight bytes, u the number of the last four.
#[tactic(auto, unfolding(crate::specs::Decode::formed))]
fn formed(kind: u8, i: u8, j: u8, z: u8, u: u32) -> Option<Op>
    ensures { result ≡ formed kind i j z u }
{
    let constant = i64::from(u) - LIMIT;
    match (kind, j, z, u) {
        (1, _, 0, 0) => Some(Op::Add(i, j)),
        (2, _, 0, 0) => Some(Op::Mul(i, j)),
        (3, 0, 0, _) => Some(Op::AddC(i, constant)),
        (4, 0, 0, _) => Some(Op::MulC(i, constant)),
        (5, _, 0, 0) => Some(Op::Pow(i, j)),
        (6, 0, 0, 0) => Some(Op::Inv(i)),
        _ => None,
    }
}

// The operation at k, with `earlier` codelist lines before it.
#[tactic(auto, unfolding(crate::specs::Decode::op_at))]
pub fn op_at(state: &[u8], k: usize, earlier: u64) -> Option<Op>
    ensures { result ≡ op_at state.now k earlier }
{
    if state.len() != LENGTH || MOST_OPS <= k {
        return None;
    }
    let s = &state[8 + 8 * k..];
    let u = u32::from_le_bytes([s[4], s[5], s[6], s[7]]);
    let op = formed(s[0], s[1], s[2], s[3], u)?;
    codelist::is_op_well_formed(earlier, op).then_some(op)
}

// Whether all operations are well formed, for what stands at the front.
fn are_ops(state: &[u8], front: Front) -> bool
    ensures { result ≡ are_ops state.now front.factors 0 front.count }
{
    let n = u64::from(front.factors);
    (0..front.count).all(|k| op_at(state, usize::from(k), n + u64::from(k)).is_some())
}

// Whether the bytes are a codelist's.
pub fn holds_codelist(state: &[u8]) -> bool
    ensures { result ≡ holds_codelist state.now }
{
    head(state).is_some_and(|front| are_ops(state, front))
}

// The eight bytes of an operation, u the number in the last four.
fn fields(kind: u8, i: u8, j: u8, u: u32) -> [u8; 8]
    ensures { result ≡ fields kind i j u }
{
    let [a, b, c, d] = u.to_le_bytes();
    [kind, i, j, 0, a, b, c, d]
}

// A constant within the limit, plus the limit.
fn shifted(c: i64) -> u32
    requires { nat_abs c ≤ limit }
    ensures { result ≡ shifted c }
{
    (c + LIMIT) as u32
}

fn op_bytes(op: Op) -> [u8; 8]
    requires { Small op }
    ensures { result ≡ op_bytes op }
{
    match op {
        Op::Add(i, j) => fields(1, i, j, 0),
        Op::Mul(i, j) => fields(2, i, j, 0),
        Op::AddC(i, c) => fields(3, i, 0, shifted(c)),
        Op::MulC(i, c) => fields(4, i, 0, shifted(c)),
        Op::Pow(i, m) => fields(5, i, m, 0),
        Op::Inv(i) => fields(6, i, 0, 0),
    }
}

// The byte of a year. A function, as above.
fn year_byte(y: Year) -> u8
    ensures { result ≡ year_byte y }
{
    match y {
        Year::Y2016 => 0,
        Year::Y2014 => 1,
    }
}

// The codelist as bytes. Each operation's by their place: of bytes written through `chunks_exact_mut` nothing is known but how many they are.
fn store(state: &mut [u8], c: &Codelist)
    requires state_len { length state.old ≡ 512 }
    requires well_formed { WellFormed c.now }
    ensures { state.new ≡ encoded c.now }
{
    state.fill(0);
    state[0] = c.factors;
    state[1] = c.count;
    state[2] = year_byte(c.year);
    // By the operation, whose bytes stand 8 · k behind the first eight.
    for k in 0..usize::from(c.count) {
        let at = 8 + 8 * k;
        state[at..at + 8].copy_from_slice(&op_bytes(c.ops[k].op));
    }
}

// A load into lent bytes: they change only where the text is accepted and they are as many as a codelist takes.
pub fn load(state: &mut [u8], text: &[u8]) -> Result<(), Refusal>
    ensures value { in_full result ≡ (load_of text.now).outcome }
    ensures state_after { state.new ≡ left_by state.old (load_of text.now) }
{
    let codelist = codelist::load(text)?;
    if state.len() == LENGTH {
        store(state, &codelist);
    }
    Ok(())
}
