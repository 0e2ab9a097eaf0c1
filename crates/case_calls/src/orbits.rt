// Orbits: least words, words at an index, orbit lists, walks.
use crate::InForce;
use case_text::commands::OfOrbit;
use group::Group;
use lines::Append;
use orbit::{Entry, Walk};
use outcome::Refusal;
use pauli_word::WORD_BYTES;
use std::alloc::AllocError;

// The most bytes of an orbit list.
const LIST_ROOM: usize = 1024 * WORD_BYTES;

// What the calls on a group and a word answer that fill no counter list.
pub fn answer(out: &mut Vec<u8>, given: &InForce<'_>, call: OfOrbit) -> Result<(), AllocError> {
    let InForce { group, n, word, .. } = *given;
    match call {
        OfOrbit::Canonicalize => spell(out, n, orbit::canonicalize(&group, n, word)),
        OfOrbit::WithIndex => with_index(out, given),
        OfOrbit::At(index) => word_at(out, given, index),
        OfOrbit::List(bytes) => orbit_list(out, given, bytes),
    }
}

// The word of an answer, or the refusal.
pub fn spell(
    out: &mut Vec<u8>,
    n: usize,
    answer: Result<[u8; WORD_BYTES], Refusal>,
) -> Result<(), AllocError> {
    match answer {
        Ok(word) => lines::spell(out, n, &word),
        Err(why) => lines::refusal(out, why),
    }
}

fn with_index(out: &mut Vec<u8>, given: &InForce<'_>) -> Result<(), AllocError> {
    match orbit::canonicalize_with_index(&given.group, given.n, given.word) {
        Ok(found) => {
            lines::spell(out, given.n, &found.word)?;
            let index = found.index;
            write!(out, " {index}")
        }
        Err(why) => lines::refusal(out, why),
    }
}

// Beside a refusal no word is made.
fn word_at(out: &mut Vec<u8>, given: &InForce<'_>, index: usize) -> Result<(), AllocError> {
    match orbit::word_at_index(&given.group, given.n, given.word, index) {
        Ok(word) => lines::spell(out, given.n, &word),
        Err(why) => {
            lines::refusal(out, why)?;
            write!(out, ", zeros")
        }
    }
}

fn orbit_list(out: &mut Vec<u8>, given: &InForce<'_>, bytes: usize) -> Result<(), AllocError> {
    if LIST_ROOM < bytes {
        return write!(out, "?");
    }
    let mut list = vec![in *out.allocator(); 9u8; bytes]?;
    match orbit::orbit_list(&given.group, given.n, given.word, &mut list) {
        Ok(()) => {
            write!(out, "done:")?;
            lines::words(out, given.n, &list)
        }
        Err(why) => {
            lines::refusal(out, why)?;
            after(out, &list)
        }
    }
}

// What a list that was all nines holds after a refusal.
fn after(out: &mut Vec<u8>, list: &[u8]) -> Result<(), AllocError> {
    if list.iter().all(|byte| *byte == 9) {
        write!(out, ", as it was")
    } else {
        write!(out, ", changed")
    }
}

// Puts a walk in force; after a refusal one whose steps are refused.
pub fn begin(
    out: &mut Vec<u8>,
    walk: &mut Walk,
    group: &Group,
    n: usize,
    word: &[u8],
) -> Result<(), AllocError> {
    match orbit::orbit(*group, n, word) {
        Ok(begun) => {
            *walk = begun;
            write!(out, "begun")
        }
        Err(why) => {
            *walk = orbit::steps::no_walk();
            lines::refusal(out, why)
        }
    }
}

// Steps one after another, each from where the one before came to.
pub fn steps(out: &mut Vec<u8>, walk: &mut Walk, n: usize, count: usize) -> Result<(), AllocError> {
    for i in 0..count {
        if 0 < i {
            write!(out, "; ")?;
        }
        let stepped = walk.next();
        *walk = stepped.walk;
        step(out, n, stepped.answer)?;
    }
    Ok(())
}

fn step(
    out: &mut Vec<u8>,
    n: usize,
    answer: Result<Option<Entry>, Refusal>,
) -> Result<(), AllocError> {
    match answer {
        Ok(Some(entry)) => {
            let index = entry.index;
            write!(out, "{index} ")?;
            lines::spell(out, n, &entry.word)
        }
        Ok(None) => write!(out, "finished"),
        Err(why) => lines::refusal(out, why),
    }
}
