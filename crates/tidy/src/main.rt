// The program `tidy` of 02, request 1: what `liveness::answer` says of the sheet on standard input. A byte more than the most is read, so that
// a longer sheet shows.
#![tactic(auto)]

use std::io;

fn main(rt: HostRuntime) -> io::Result<()> {
    let mut sheet = [0u8; 4097];
    let n = streams::read_full(&mut rt.stdin(), &mut sheet)?;
    rt.write_all(liveness::answer(&sheet[..n]).as_slice())
}
