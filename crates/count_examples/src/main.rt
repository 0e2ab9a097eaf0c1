// Counts what momentum sectors keep and prints the counts; the file `stdout` beside src/ is what it must print.
#![tactic(auto)]

mod counts;

use std::io;
use std::io::Write;

fn main(rt: HostRuntime) -> io::Result<()> {
    let mut out = Vec::new(rt.alloc());
    counts::chain(&mut out)?;
    counts::lists(&mut out)?;
    counts::torus(&mut out)?;
    rt.stdout().write_all(&out)
}
