// The program `sisters` of 02, request 7: what `sisters_text::answer` says of standard input. A byte more than the most is read, so that a longer
// input shows.
#![tactic(auto)]

use std::io;

fn main(rt: HostRuntime) -> io::Result<()> {
    let mut input = [0u8; 8193];
    let n = streams::read_full(&mut rt.stdin(), &mut input)?;
    rt.write_all(sisters_text::answer(&input[..n]).as_slice())
}
