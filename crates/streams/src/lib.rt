// Reading and writing as the programs do: to the input's end or a list's, and whole. A read or a write that fails is an error in the program's words, with
// the system's reason.
#![tactic(auto)]

ghost use Rattle.std.specs.Prelude.{◌≤◌, length, IfOk};

use anyhow::{Context, Result};
use std::io::{Read, Write};

// Reads into a list, to the input's end or the list's: how many bytes. `failure` is what is told of a failed read.
pub fn read_input<R: Read>(input: &mut R, list: &mut [u8], failure: &str) -> Result<usize>
    ensures { IfOk result (λ count. count ≤ length list.old) }
{
    let mut done = 0;
    // A while: each read says how far it came.
    while done < list.len() {
        let more = input.read(&mut list[done..]).context(failure)?;
        if more == 0 {
            return Ok(done);
        }
        done += more;
    }
    Ok(done)
}

// Writes the first bytes of a list. `failure` is what is told of a failed write.
pub fn write_front<W: Write>(
    output: &mut W,
    list: &[u8],
    length: usize,
    failure: &str,
) -> Result<()> {
    match list.get(..length) {
        Some(text) => output.write_all(text).context(failure),
        None => Ok(()),
    }
}
