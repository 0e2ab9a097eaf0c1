// The calls that fill a counter list, here one of nines before.
use crate::modes::MODE_ROOM;
use crate::{InForce, orbits};
use case_text::commands::{Filled, Filling};
use lines::Append;
use momentum::Sector;
use outcome::Refusal;
use pauli_word::WORD_BYTES;
use std::alloc::AllocError;

pub fn answer(out: &mut Vec<u8>, given: &InForce<'_>, filled: Filled) -> Result<(), AllocError> {
    let mut list = [9u32; MODE_ROOM];
    match list.get_mut(..filled.places) {
        Some(counter) => call(out, given, filled.call, counter),
        None => write!(out, "?"),
    }
}

// The answer, and what the list holds after the call.
fn call(
    out: &mut Vec<u8>,
    given: &InForce<'_>,
    call: Filling,
    counter: &mut [u32],
) -> Result<(), AllocError> {
    let InForce {
        group,
        n,
        word,
        modes,
    } = *given;
    match call {
        Filling::Counter(index) => {
            let answer = group::counter_from_index(&group, index, counter);
            lines::verdict(out, answer, b"done")?;
        }
        Filling::WithShift => {
            let answer = orbit::canonicalize_with_shift(&group, n, word, counter);
            orbits::spell(out, n, answer)?;
        }
        Filling::Sector => {
            let answer = momentum::canonicalize_in_sector(&group, n, word, modes, counter);
            sector(out, n, answer)?;
        }
        Filling::Beside => return beside(out, given, counter),
    }
    write!(out, ":")?;
    lines::list(out, counter)
}

fn sector(out: &mut Vec<u8>, n: usize, answer: Result<Sector, Refusal>) -> Result<(), AllocError> {
    match answer {
        Ok(Sector::Kept(kept)) => {
            let size = kept.size;
            write!(out, "kept {size} ")?;
            lines::spell(out, n, &kept.word)
        }
        Ok(Sector::Dropped(index)) => write!(out, "dropped {index}"),
        Err(why) => lines::refusal(out, why),
    }
}

// The words of the answers of the four calls on a word, zeros where one has none.
fn beside(out: &mut Vec<u8>, given: &InForce<'_>, counter: &mut [u32]) -> Result<(), AllocError> {
    let InForce {
        group,
        n,
        word,
        modes,
    } = *given;
    let zeros = [0u8; WORD_BYTES];
    let least = orbit::canonicalize(&group, n, word);
    letters(out, n, &least.unwrap_or(zeros))?;
    write!(out, " ")?;
    match orbit::canonicalize_with_index(&group, n, word) {
        Ok(indexed) => letters(out, n, &indexed.word)?,
        Err(_) => letters(out, n, &zeros)?,
    }
    write!(out, " ")?;
    let shifted = orbit::canonicalize_with_shift(&group, n, word, counter);
    letters(out, n, &shifted.unwrap_or(zeros))?;
    write!(out, " ")?;
    match momentum::canonicalize_in_sector(&group, n, word, modes, counter) {
        Ok(Sector::Kept(kept)) => letters(out, n, &kept.word),
        _ => letters(out, n, &zeros),
    }
}

// A word by its letters, or that it is zeros.
fn letters(out: &mut Vec<u8>, n: usize, word: &[u8]) -> Result<(), AllocError> {
    if word.iter().all(|byte| *byte == 0) {
        write!(out, "zeros")
    } else {
        lines::spell(out, n, word)
    }
}
