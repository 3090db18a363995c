// The program `cut` of 02, request 6: what `cut_text::answer` says of standard input. A byte more than the most is read, so that a longer input shows.
#![tactic(auto)]

use std::io;

fn main(rt: HostRuntime) -> io::Result<()> {
    let mut input = [0u8; 8193];
    let n = streams::read_full(&mut rt.stdin(), &mut input)?;
    rt.write_all(cut_text::answer(&input[..n]).as_slice())
}
