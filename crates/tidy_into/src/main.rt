// Tidying into a buffer of any length (02, request 1), for the tests: the buffer holds the bytes of the first argument, at most 2,048. Writes the
// outcome, `written` and how many bytes, or `refused` with number and place, and then the buffer as the call left it.
#![tactic(auto)]

use std::env::Env;
use std::io;

fn show(out: &impl Print, sheet: &[u8], buffer: &mut [u8]) -> io::Result<()> {
    match liveness::tidy(sheet, buffer) {
        Ok(len) => println!(out; "written\t{len}")?,
        Err(why) => println!(out; "refused\t{}\t{}", why.number(), why.place())?,
    }
    out.write_all(buffer)
}

fn main(rt: HostRuntime) -> io::Result<()> {
    let mut buffer = [0u8; 2048];
    let k = rt.arg(1, &mut buffer).unwrap_or(0);
    let mut sheet = [0u8; 4097];
    let n = streams::read_full(&mut rt.stdin(), &mut sheet)?;
    show(&rt, &sheet[..n], &mut buffer[..k])
}
