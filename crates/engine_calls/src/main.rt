// The engine's calls one after another (01: "A desk is started empty, a sheet is loaded from bytes, and ranges are rated against the loaded sheet.
// Loading replaces an earlier sheet. Rating changes nothing on the desk."). Writes a line for each call: the refusal's number and place, 0 at 0 where
// the call is accepted; and for a rating, whose limits it gives: 0 where every field of them is 0, 1 those of the square, 2 those of the sum, 3 others.
#![tactic(auto)]

use codelist::{Codelist, Entry, Op, Year};
use engine::{Engine, Refusal};
use range::Range;
use rules::Limits;
use std::io;

// The number and place of a refusal, 0 at 0 of none.
fn number_and_place(refusal: Option<Refusal>) -> (u8, u64) {
    match refusal {
        None => (0, 0),
        Some(why) => (why.number(), why.place()),
    }
}

// Limits of which value and slopes are those ranges, both bends are the same, and so are both sets. "A pair beyond the last factor is 0, 0": no sheet here has
// more than two factors.
fn limits(value: Range, first: Range, second: Range, bend: Range, set: u8) -> Limits {
    let zero = Range::ZERO;
    Limits {
        value,
        gradient: [first, second, zero, zero, zero, zero, zero, zero],
        support: set,
        nonlinear: set,
        spectrum: bend,
        full: bend,
    }
}

// Whose limits they are, by the number that is printed. 01's figures: "every other field is 0"; V 10000..90000, G 20000..60000, E 20000..20000 of the square on 10000..30000; of two
// squares on 0..10000, added, V and both slopes 0..20000, E 20000..20000.
fn whose(l: Limits) -> u64 {
    let zero = Range::ZERO;
    let two = Range::new(20_000, 20_000);
    if l == Limits::ZERO {
        return 0;
    }
    let value = Range::new(10_000, 90_000);
    let slope = Range::new(20_000, 60_000);
    if l == limits(value, slope, zero, two, 1) {
        return 1;
    }
    let wide = Range::new(0, 20_000);
    if l == limits(wide, wide, wide, two, 3) {
        return 2;
    }
    3
}

fn load(out: &impl Print, e: &mut Engine, text: &[u8]) -> io::Result<()> {
    let (number, place) = number_and_place(e.load(text).err());
    println!(out; "load: {number} at {place}")
}

// The same of a formula.
fn load_formula(out: &impl Print, e: &mut Engine, text: &[u8], factors: u64) -> io::Result<()> {
    let (number, place) = number_and_place(e.load_formula(text, factors).err());
    println!(out; "formula: {number} at {place}")
}

fn rate(out: &impl Print, e: &Engine, ranges: &[i64]) -> io::Result<()> {
    let answer = e.rate(ranges);
    let (number, place) = number_and_place(answer.err());
    let whose = whose(answer.unwrap_or(Limits::ZERO));
    println!(out; "rate: {number} at {place}, limits {whose}")
}

fn rate_one(out: &impl Print, e: &Engine, low: i64, high: i64) -> io::Result<()> {
    rate(out, e, &[low, high])
}

fn rate_two(out: &impl Print, e: &Engine, low: i64, high: i64) -> io::Result<()> {
    rate(out, e, &[0, 10_000, low, high])
}

fn square(out: &impl Print, e: &mut Engine) -> io::Result<()> {
    load(out, e, b"factors\t1\npow\t1\t2\n")
}

// A load that is to be refused: the engine rates the square as before.
fn keeps(out: &impl Print, e: &mut Engine, text: &[u8]) -> io::Result<()> {
    load(out, e, text)?;
    rate_one(out, e, 10_000, 30_000)
}

// Nothing is loaded: 10, before 8 and 9.
fn fresh(out: &impl Print, e: &Engine) -> io::Result<()> {
    rate_one(out, e, 10_000, 30_000)?;
    rate_one(out, e, 1, 0)?;
    rate_two(out, e, 0, 10_000)
}

// Refusals 1 to 4 and 17.
fn refused_first(out: &impl Print, e: &mut Engine) -> io::Result<()> {
    keeps(out, e, &[b'\n'; 4097])?;
    keeps(out, e, b"")?;
    keeps(out, e, b"factors\t9\ninv\t1\n")?;
    keeps(out, e, b"factors\t1\t2015\ninv\t1\n")?;
    keeps(out, e, b"factors\t2\n")
}

// Refusals 5 to 7 and 15, and 2 once more, behind lines that would be a codelist by themselves.
fn refused_later(out: &impl Print, e: &mut Engine) -> io::Result<()> {
    keeps(out, e, b"factors\t1\ninv\t1\ninv\t9\n")?;
    keeps(out, e, b"factors\t1\ninv\t1\npow\t1\t9\n")?;
    keeps(out, e, b"factors\t1\ninv\t1\naddc\t1\t2000000001\n")?;
    keeps(out, e, b"factors\t1\ninv\t1\nmulc\t1\t0\n")?;
    keeps(out, e, b"factors\t1\ninv\t1\ninv\t1")
}

// The sum has two factors: the square's range is no longer enough (8). Refused ratings change nothing.
fn replaced(out: &impl Print, e: &mut Engine) -> io::Result<()> {
    load(out, e, b"factors\t2\npow\t1\t2\npow\t2\t2\nadd\t3\t4\n")?;
    rate_one(out, e, 10_000, 30_000)?;
    rate_two(out, e, 0, 10_000)?;
    rate_two(out, e, 1, 0)?;
    rate_two(out, e, 0, 2_000_000_001)?;
    rate_two(out, e, 0, 2_000_000_000)?;
    rate_two(out, e, 0, 10_000)
}

// 01's figures for 11 and 12; then the square again.
fn inverse(out: &impl Print, e: &mut Engine) -> io::Result<()> {
    load(out, e, b"factors\t1\ninv\t1\n")?;
    rate_one(out, e, 0, 10_000)?;
    rate_one(out, e, 1, 1)?;
    square(out, e)?;
    rate_one(out, e, 10_000, 30_000)
}

// A formula that is to be refused: the engine rates the sum as before.
fn keeps_sum(out: &impl Print, e: &mut Engine, text: &[u8], factors: u64) -> io::Result<()> {
    load_formula(out, e, text, factors)?;
    rate_two(out, e, 0, 10_000)
}

// Formulas (02, request 12): the sum of two squares; 19 by a byte, by the end and by the length, 20, and what loading their sheets refuses; then the square.
fn formulas(out: &impl Print, e: &mut Engine) -> io::Result<()> {
    keeps_sum(out, e, b"f1^2+f2^2", 2)?;
    keeps_sum(out, e, b"f1^2+f9", 2)?;
    keeps_sum(out, e, b"f1^2+", 2)?;
    keeps_sum(out, e, &[b'f'; 1025], 2)?;
    keeps_sum(out, e, b"2*3*f1", 2)?;
    keeps_sum(out, e, b"f1^2", 9)?;
    keeps_sum(out, e, b"f1+f3", 2)?;
    keeps_sum(out, e, b"f1^9", 2)?;
    keeps_sum(out, e, b"f1+200000.0001", 2)?;
    keeps_sum(out, e, b"f1-0*f2", 2)?;
    load_formula(out, e, b"f1^2", 1)?;
    rate_one(out, e, 10_000, 30_000)
}

// An engine that was not loaded but written down, with `mulc→1→c`: by 0 it is one that no accepted load leaves and counts as empty, 10 before 8 and 9;
// by one unit it is rated.
fn written_down(out: &impl Print, c: i64) -> io::Result<()> {
    let e = Engine {
        codelist: Codelist {
            factors: 1,
            count: 1,
            year: Year::Y2016,
            ops: [Entry { op: Op::MulC(1, c) }; 64],
        },
    };
    rate_one(out, &e, 10_000, 30_000)?;
    rate_one(out, &e, 1, 0)?;
    rate_two(out, &e, 0, 10_000)
}

fn main(rt: HostRuntime) -> io::Result<()> {
    let out = &rt;
    let mut e = Engine::new();
    fresh(out, &e)?;
    square(out, &mut e)?;
    rate_one(out, &e, 10_000, 30_000)?;
    refused_first(out, &mut e)?;
    refused_later(out, &mut e)?;
    replaced(out, &mut e)?;
    // both of these begin with the sum
    let mut sum = e;
    inverse(out, &mut e)?;
    formulas(out, &mut sum)?;
    written_down(out, 0)?;
    written_down(out, 1)
}
