// Rounding at its edges (02, request 8), by the code that runs: dividends about 0, about 10,000 and about 10,000 times the limit, and for the inverse the
// least and the greatest divisors. Writes a line for each: what is divided, and whether it was rounded to the two ends that stand here beside it.
#![tactic(auto)]

use range::Range;
use std::io;

// What is divided by 10,000, and its two ends; 1 and 0 are those of what is no range: an end has passed the limit. No rating comes to the last two.
const SCALED: [(i64, i64, i64); 15] = [
    (-20_000_000_000_001, 1, 0),
    (-20_000_000_000_000, -2_000_000_000, -2_000_000_000),
    (-10_001, -2, -1),
    (-10_000, -1, -1),
    (-9_999, -1, 0),
    (-1, -1, 0),
    (0, 0, 0),
    (1, 0, 1),
    (9_999, 0, 1),
    (10_000, 1, 1),
    (10_001, 1, 2),
    (20_000_000_000_000, 2_000_000_000, 2_000_000_000),
    (20_000_000_000_001, 1, 0),
    (-9_223_372_036_854_775_808, 1, 0),
    (9_223_372_036_854_775_807, 1, 0),
];

// What 100,000,000 is divided by, and the two ends.
const INVERTED: [(i64, i64, i64); 6] = [
    (-2_000_000_000, -1, 0),
    (-3, -33_333_334, -33_333_333),
    (-1, -100_000_000, -100_000_000),
    (1, 100_000_000, 100_000_000),
    (3, 33_333_333, 33_333_334),
    (2_000_000_000, 0, 1),
];

fn verdict(found: Range, low: i64, high: i64) -> &'static str {
    if found == Range::new(low, high) {
        "as it must be"
    } else {
        "missed"
    }
}

fn main(rt: HostRuntime) -> io::Result<()> {
    for (x, low, high) in SCALED {
        let found = Range::new(x, x).scaled_within();
        println!(rt; "{x}: {}", verdict(found, low, high))?;
    }
    for (x, low, high) in INVERTED {
        let found = Range::new(x, x).inverse();
        println!(rt; "100000000 by {x}: {}", verdict(found, low, high))?;
    }
    Ok(())
}
