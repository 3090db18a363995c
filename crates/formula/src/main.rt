// The program `formula` of 02, request 12: what `formulas::answer` says of standard input. More bytes are read than a first line and a formula of 1,024
// bytes have, so that a longer text shows.
#![tactic(auto)]

use std::io;

fn main(rt: HostRuntime) -> io::Result<()> {
    let mut input = [0u8; 2048];
    let n = streams::read_full(&mut rt.stdin(), &mut input)?;
    let out = formulas::answer(&input[..n]);
    rt.write_all(out.as_slice())
}
