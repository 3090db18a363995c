// The programs `rate` and `fleet`, with their work done as often as the first argument says: for measuring it. The second argument is the job.
#![tactic(auto)]

use fleet_text::Form;
use std::env::Env;
use std::io;
use text::Text;

fn main(rt: HostRuntime) -> io::Result<()> {
    let mut arg = [0u8; 16];
    let k = rt.arg(1, &mut arg).unwrap_or(0);
    let mut job = [0u8; 16];
    let j = rt.arg(2, &mut job).unwrap_or(0);
    let mut input = [0u8; 102401];
    let n = streams::read_full(&mut rt.stdin(), &mut input)?;
    rt.write_all(answer(&job[..j], &input[..n], times_of(&arg[..k])).as_slice())
}

// What the job prints: `numbers` makes pages of a flat slice of numbers, `boats` pages of a slice of structs; `rate`, and no job, are ratings.
fn answer(job: &[u8], input: &[u8], times: u64) -> Text {
    match job {
        b"numbers" => fleet_text::answer_after(input, Form::Numbers, times),
        b"boats" => fleet_text::answer_after(input, Form::Structs, times),
        _ => text::answer_after(input, times),
    }
}

// How often: the number that decimal digits write, up to the first other byte and to ten digits.
fn times_of(arg: &[u8]) -> u64 {
    let mut times: u64 = 0;
    for b in arg {
        if !b.is_ascii_digit() || 1_000_000_000 <= times {
            break;
        }
        times = times * 10 + u64::from(*b - b'0');
    }
    times
}
