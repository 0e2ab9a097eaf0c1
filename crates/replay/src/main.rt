// Calls of every kind: answers the list of cases in `stdin` beside src/; the file `stdout` there is what it must print.
#![tactic(auto)]

use std::io;

fn main(rt: HostRuntime) -> io::Result<()> {
    cases::run(rt.alloc(), &mut rt.stdin(), &mut rt.stdout())
}
