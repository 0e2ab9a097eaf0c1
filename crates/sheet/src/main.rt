// The program: reads a sheet from standard input, to its end or to one byte past the limit, and prints its table. A read or a write that fails is told on
// standard error, with the system's reason; a failed read prints no table.
#![tactic(auto)]

use anyhow::Result;
use sheet_text::{MAX_SHEET, MAX_TABLE, Printed};
use std::io::Write;

// One byte more than a sheet may have, so that a longer one is seen.
const MAX_INPUT: usize = MAX_SHEET + 1;

fn main(rt: HostRuntime) -> Result<()> {
    let mut input = [0u8; MAX_INPUT];
    let read = streams::read_input(
        &mut rt.stdin(),
        &mut input,
        "sheet: standard input cannot be read",
    )?;
    print_front(&mut rt.stdout(), &input, read)
}

// The table of the first bytes.
fn print_front<W: Write>(output: &mut W, input: &[u8], read: usize) -> Result<()> {
    if read <= input.len() {
        return print_table(output, &input[..read]);
    }
    Ok(())
}

fn print_table<W: Write>(output: &mut W, input: &[u8]) -> Result<()> {
    let mut table = [0u8; MAX_TABLE];
    match sheet_text::sheet_text(input, &mut table) {
        Printed::Table(length) => write(output, &table, length),
        Printed::Refused(_, _, length) => write(output, &table, length),
        Printed::ListLength => Ok(()),
    }
}

fn write<W: Write>(output: &mut W, table: &[u8], length: usize) -> Result<()> {
    streams::write_front(
        output,
        table,
        length,
        "sheet: standard output cannot be written",
    )
}
