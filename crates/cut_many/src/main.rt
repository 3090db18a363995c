// The program `cut`, with its call made as often as the first argument says: for measuring it. With the second argument `rate` the ratings of the program
// `rate`, to hold it beside. A program of its own: in one program with `cut` every rating is a call more, with a copy of the codelist, and `rate_many`
// is there to time ratings as `rate` makes them.
#![tactic(auto)]

use std::env::Env;
use std::io;
use text::Text;

fn main(rt: HostRuntime) -> io::Result<()> {
    let mut arg = [0u8; 16];
    let _ = rt.arg(1, &mut arg);
    let mut job = [0u8; 16];
    let j = rt.arg(2, &mut job).unwrap_or(0);
    let mut input = [0u8; 8193];
    let n = streams::read_full(&mut rt.stdin(), &mut input)?;
    rt.write_all(answer(&job[..j], &input[..n], times_of(&arg)).as_slice())
}

// What the job prints: `rate` is ratings, and no job is cuts.
fn answer(job: &[u8], input: &[u8], times: u64) -> Text {
    match job {
        b"rate" => text::answer_after(input, times),
        _ => cut_text::answer_after(input, times),
    }
}

// How often: the numeral that the bytes begin with, where a byte 0 follows it, as one does in a longer array; else once.
fn times_of(arg: &[u8]) -> u64 {
    codelist::field(arg, 0).map_or(1, |(times, _)| times.magnitude)
}
