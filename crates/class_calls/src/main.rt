// The calls of four classes on one desk, one after another (02, request 13). Writes a line for each call: its class, the refusal's number and place, 0 at 0 where
// it is accepted, and what the call gives: of a rating, cut or not, the ends of the value, of a page the boats accepted and the sums, of two boats the two ends.
// Where it is refused these are 0.
#![tactic(auto)]

use boats::{Boat, Report};
use classes::{Classes, Refusal};
use range::Range;
use rules::Limits;
use std::io;

// No end of the classes here is below 0.
fn end(out: &impl Print, x: i64) -> io::Result<()> {
    if 0 <= x {
        print!(out; " {x}")
    } else {
        print!(out; " below 0")
    }
}

// The call, and its refusal if there is one.
fn say(out: &impl Print, call: &str, class: u64, refusal: Option<Refusal>) -> io::Result<()> {
    let (number, place) = match refusal {
        None => (0, 0),
        Some(why) => (why.number(), why.place()),
    };
    print!(out; "{call} {class}: {number} at {place}")
}

// Two ends, and the line's end.
fn ends(out: &impl Print, range: Range) -> io::Result<()> {
    end(out, range.low)?;
    end(out, range.high)?;
    println!(out; "")
}

fn load(out: &impl Print, d: &mut Classes, class: u64, text: &[u8]) -> io::Result<()> {
    say(out, "load", class, d.load(class, text).err())?;
    println!(out; "")
}

fn load_formula(out: &impl Print, d: &mut Classes, class: u64, text: &[u8]) -> io::Result<()> {
    say(out, "formula", class, d.load_formula(class, text, 1).err())?;
    println!(out; "")
}

fn limits(
    out: &impl Print,
    call: &str,
    class: u64,
    answer: Result<Limits, Refusal>,
) -> io::Result<()> {
    say(out, call, class, answer.err())?;
    ends(out, answer.unwrap_or(Limits::ZERO).value)
}

fn rate(out: &impl Print, d: &Classes, class: u64) -> io::Result<()> {
    limits(out, "rate", class, d.rate(class, &[10_000, 30_000]))
}

fn rate_all(out: &impl Print, d: &Classes) -> io::Result<()> {
    for class in 1..=4 {
        rate(out, d, class)?;
    }
    Ok(())
}

fn cut(out: &impl Print, d: &Classes, class: u64) -> io::Result<()> {
    limits(out, "cut", class, d.cut(class, &[10_000, 30_000], 1))
}

fn page(
    out: &impl Print,
    call: &str,
    class: u64,
    answer: Result<Report, Refusal>,
) -> io::Result<()> {
    say(out, call, class, answer.err())?;
    let (accepted, sums) = match answer {
        Ok(r) => (
            r.accepted,
            Range {
                low: r.low,
                high: r.high,
            },
        ),
        Err(_) => (0, Range::ZERO),
    };
    print!(out; " {accepted}")?;
    ends(out, sums)
}

// Two boats, in either form.
fn fleet(out: &impl Print, d: &Classes, class: u64) -> io::Result<()> {
    let one = [10_000, 0, 0, 0, 0, 0, 0, 0];
    let other = [20_000, 0, 0, 0, 0, 0, 0, 0];
    let mut numbers = [0; 16];
    numbers[..8].copy_from_slice(&one);
    numbers[8..].copy_from_slice(&other);
    page(out, "fleet", class, d.fleet(class, &numbers))?;
    let boats = [Boat { numbers: one }, Boat { numbers: other }];
    page(
        out,
        "fleet of boats",
        class,
        classes::fleet_of_boats(class, *d, &boats),
    )
}

fn sisters(out: &impl Print, d: &Classes, class: u64) -> io::Result<()> {
    let answer = d.sisters(class, &[10_000, 30_000], &[10_000, 20_000]);
    say(out, "sisters", class, answer.err())?;
    ends(out, answer.unwrap_or(Range::ZERO))
}

fn sail(out: &impl Print, d: &mut Classes) -> io::Result<()> {
    load(out, d, 1, b"factors\t1\npow\t1\t2\n")
}

fn motor(out: &impl Print, d: &mut Classes) -> io::Result<()> {
    load(out, d, 2, b"factors\t1\npow\t1\t3\n")
}

fn dinghy(out: &impl Print, d: &mut Classes) -> io::Result<()> {
    load(out, d, 3, b"factors\t1\nmulc\t1\t15000\n")
}

fn charter(out: &impl Print, d: &mut Classes) -> io::Result<()> {
    load(out, d, 4, b"factors\t1\naddc\t1\t200000\n")
}

// Every call by a number that is no class's: 21, whatever else is wrong, and the four rate as before.
fn unknown(out: &impl Print, d: &mut Classes, class: u64) -> io::Result<()> {
    load(out, d, class, b"factors\t9\n")?;
    load_formula(out, d, class, b"f1+")?;
    rate(out, d, class)?;
    cut(out, d, class)?;
    fleet(out, d, class)?;
    sisters(out, d, class)?;
    rate_all(out, d)
}

fn every_call(out: &impl Print, d: &Classes, class: u64) -> io::Result<()> {
    cut(out, d, class)?;
    fleet(out, d, class)?;
    sisters(out, d, class)
}

fn main(rt: HostRuntime) -> io::Result<()> {
    let out = &rt;
    // in two orders
    let mut d = Classes::new();
    sail(out, &mut d)?;
    motor(out, &mut d)?;
    dinghy(out, &mut d)?;
    charter(out, &mut d)?;
    rate_all(out, &d)?;
    d = Classes::new();
    charter(out, &mut d)?;
    dinghy(out, &mut d)?;
    motor(out, &mut d)?;
    sail(out, &mut d)?;
    rate_all(out, &d)?;
    // loads that are refused, and one that is not: the other three stay
    load(out, &mut d, 2, b"factors\t9\ninv\t1\n")?;
    load_formula(out, &mut d, 3, b"f1+")?;
    rate_all(out, &d)?;
    load_formula(out, &mut d, 2, b"2/f1")?;
    rate_all(out, &d)?;
    every_call(out, &d, 1)?;
    every_call(out, &d, 4)?;
    unknown(out, &mut d, 0)?;
    unknown(out, &mut d, 5)?;
    unknown(out, &mut d, u64::MAX)?;
    // one class is loaded, and the others are empty
    d = Classes::new();
    dinghy(out, &mut d)?;
    rate_all(out, &d)
}
