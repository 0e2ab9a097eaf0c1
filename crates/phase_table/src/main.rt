// The program: reads the file of a phase table from standard input, to its end or to one byte past the limit, and prints `accepted`, or `refused` and
// the number of the rule that the file breaks. A read or a write that fails is told on standard error, with the system's reason; a failed read prints
// no answer.
#![tactic(auto)]

use anyhow::Result;
use phase_file::answer::MAX_LINE;
use phase_file::{MAX_FILE, answer};
use std::io::Write;

// One byte more than a file may have, so that a longer one is seen.
const MAX_INPUT: usize = MAX_FILE + 1;

fn main(rt: HostRuntime) -> Result<()> {
    let mut input = [0u8; MAX_INPUT];
    let read = streams::read_input(
        &mut rt.stdin(),
        &mut input,
        "phase_table: standard input cannot be read",
    )?;
    print_front(&mut rt.stdout(), &input, read)
}

// The answer to the first bytes.
fn print_front<W: Write>(output: &mut W, input: &[u8], read: usize) -> Result<()> {
    if read <= input.len() {
        return print_answer(output, &input[..read]);
    }
    Ok(())
}

fn print_answer<W: Write>(output: &mut W, file: &[u8]) -> Result<()> {
    let mut line = [0u8; MAX_LINE];
    let read = phase_file::read_phase_table(file).map_err(|refused| refused.why);
    let length = answer::write_answer(read, &mut line);
    write(output, &line, length)
}

fn write<W: Write>(output: &mut W, line: &[u8], length: usize) -> Result<()> {
    streams::write_front(
        output,
        line,
        length,
        "phase_table: standard output cannot be written",
    )
}
