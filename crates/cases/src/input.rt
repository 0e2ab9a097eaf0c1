// An input, read in chunks and cut into lines. What the lines of a chunk print is written before the next is read.
use crate::answer;
use crate::state::State;
use case_text::texts::TEXT_ROOM;
use std::alloc::{AllocError, Global};
use std::io;
use std::io::{Read, Write};

// The most bytes of a chunk.
const CHUNK: usize = 65536;

// What is in force, and how much of the next line is read.
#[derive(Drop)]
struct Reading {
    state: State,
    line: Vec<u8>,
}

// Answers each line of an input. A proved loop has to end, and nothing says that the input does: it has a number of turns that no run uses up.
pub fn run<R: Read, W: Write>(alloc: Global, input: &mut R, output: &mut W) -> io::Result<()> {
    let mut reading = Reading {
        state: State::new(alloc),
        line: Vec::new(alloc),
    };
    let mut out = Vec::new(alloc);
    for _ in 0..u64::MAX {
        let more = reading.chunk(input, &mut out)?;
        output.write_all(&out)?;
        out.clear();
        if !more {
            break;
        }
    }
    Ok(())
}

impl Reading {
    // Reads once, and answers the lines that end there. Whether there may be more: not where the input ended, or a read failed.
    fn chunk<R: Read>(&mut self, input: &mut R, out: &mut Vec<u8>) -> io::Result<bool> {
        let mut bytes = [0u8; CHUNK];
        match input.read(&mut bytes) {
            Ok(0) => {
                if !self.line.is_empty() {
                    out.extend_from_slice(b"?\n")?;
                }
                Ok(false)
            }
            Ok(n) => {
                self.take(out, &bytes[..n])?;
                Ok(true)
            }
            Err(_) => {
                out.extend_from_slice(b"?\n")?;
                Ok(false)
            }
        }
    }

    // Answers the lines that end in these bytes, and keeps what stands after them.
    fn take(&mut self, out: &mut Vec<u8>, bytes: &[u8]) -> Result<(), AllocError> {
        for piece in bytes.split_inclusive(|byte| *byte == b'\n') {
            if let Some((b'\n', end)) = piece.split_last() {
                self.append(end)?;
                self.answer(out)?;
                self.line.clear();
            } else {
                self.append(piece)?;
            }
        }
        Ok(())
    }

    // Appends bytes to the line, until there is no room.
    fn append(&mut self, bytes: &[u8]) -> Result<(), AllocError> {
        if self.line.len() < TEXT_ROOM {
            self.line.extend_from_slice(bytes)?;
        }
        Ok(())
    }

    fn answer(&mut self, out: &mut Vec<u8>) -> Result<(), AllocError> {
        if self.line.len() < TEXT_ROOM {
            answer::line(out, &mut self.state, &self.line)
        } else {
            out.extend_from_slice(b"?\n")
        }
    }
}
