// Counts over all words of 2 and of 4 sites: how many representatives each mode list keeps, and how many mode lists keep a word.
ghost use Rattle.std.specs.Prelude.{◌≤◌, IfOk};

use momentum::Sector;
use outcome::Refusal;
use pauli_word::{PLANE_BYTES, WORD_BYTES};
use permutation::Lent;
use std::cmp::Ordering;
use std::io;
use std::io::{ErrorKind, Write};

// The mode lists of a torus of 2 by 2.
const TORUS_MODES: [[i32; 2]; 4] = [[0, 0], [1, 0], [0, 1], [1, 1]];

// No call here is refused.
fn refused(_why: Refusal) -> io::Error {
    io::Error::new(ErrorKind::InvalidInput, "a call refused its input")
}

// The 16 words of a ring of 2.
pub fn chain(out: &mut Vec<u8>) -> io::Result<()> {
    let even = chain_at(out, 0)?;
    let odd = chain_at(out, 1)?;
    write!(out, "chain 2, both modes: ")?;
    pairs(out, even + odd, 16)
}

fn chain_at(out: &mut Vec<u8>, mode: i32) -> io::Result<usize>
    ensures { IfOk result (λ count. count ≤ 16) }
{
    let group = group::chain_1d(2).map_err(refused)?;
    representatives(out, "chain 2", &group.lent(), 2, 16, &[mode])
}

// The 256 words of a torus of 2 by 2.
pub fn torus(out: &mut Vec<u8>) -> io::Result<()> {
    let a = torus_at(out, [0, 0])?;
    let b = torus_at(out, [1, 0])?;
    let c = torus_at(out, [0, 1])?;
    let d = torus_at(out, [1, 1])?;
    write!(out, "torus 2 by 2, all four mode lists: ")?;
    pairs(out, a + b + c + d, 256)
}

fn torus_at(out: &mut Vec<u8>, modes: [i32; 2]) -> io::Result<usize>
    ensures { IfOk result (λ count. count ≤ 256) }
{
    let group = group::torus_2d(2, 2).map_err(refused)?;
    representatives(out, "torus 2 by 2", &group.lent(), 4, 256, &modes)
}

fn pairs(out: &mut Vec<u8>, count: usize, words: usize) -> io::Result<()> {
    write!(
        out,
        "{count} pairs of a mode list and a representative that it keeps, {words} words\n"
    )
}

// Counts the representatives that the modes keep, in a line.
fn representatives(
    out: &mut Vec<u8>,
    name: &str,
    group: &Lent<'_>,
    n: usize,
    words: usize,
    modes: &[i32],
) -> io::Result<usize>
    ensures { IfOk result (λ count. count ≤ words) }
{
    let count = kept(group, n, words, modes).map_err(refused)?;
    write!(out, "{name}, modes")?;
    lines::list(out, modes)?;
    write!(out, ": {count} representatives kept\n")?;
    Ok(count)
}

// Over all words, by their numbers.
fn kept(group: &Lent<'_>, n: usize, words: usize, modes: &[i32]) -> Result<usize, Refusal>
    ensures { IfOk result (λ count. count ≤ words) }
{
    let mut count: usize = 0;
    for i in 0..words {
        let word = word_at(n, i);
        if size(group, n, &word, modes)? != 0 && is_representative(group, n, &word)? {
            count += 1;
        }
    }
    Ok(count)
}

// Word i of 2 or 4 sites: the low bits of i are its X plane, the next its Z plane.
fn word_at(n: usize, i: usize) -> [u8; WORD_BYTES] {
    let mut word = [0u8; WORD_BYTES];
    if n == 2 {
        word[0] = (i % 4) as u8;
        word[PLANE_BYTES] = (i / 4 % 4) as u8;
    } else {
        word[0] = (i % 16) as u8;
        word[PLANE_BYTES] = (i / 16 % 16) as u8;
    }
    word
}

// The orbit size of a word that the modes keep, and 0 of another. There are one or two modes.
fn size(group: &Lent<'_>, n: usize, word: &[u8], modes: &[i32]) -> Result<usize, Refusal> {
    let mut counter = [9u32; 2];
    let places = modes.len().min(2);
    match momentum::canonicalize_in_sector(group, n, word, modes, &mut counter[..places])? {
        Sector::Kept(kept) => Ok(kept.size),
        Sector::Dropped(_) => Ok(0),
    }
}

// Whether a word is the least of its orbit.
fn is_representative(group: &Lent<'_>, n: usize, word: &[u8]) -> Result<bool, Refusal> {
    let least = orbit::canonicalize(group, n, word)?;
    match pauli_word::compare(n, &least, word)? {
        Ordering::Equal => Ok(true),
        Ordering::Less | Ordering::Greater => Ok(false),
    }
}

// As many mode lists keep a word as its orbit has different words.
pub fn lists(out: &mut Vec<u8>) -> io::Result<()> {
    let torus = group::torus_2d(2, 2).map_err(refused)?;
    for letters in ["XIII", "XXII", "YIIY", "ZZZZ"] {
        keeping(out, &torus.lent(), letters)?;
    }
    Ok(())
}

fn keeping(out: &mut Vec<u8>, torus: &Lent<'_>, letters: &str) -> io::Result<()> {
    let word = pauli_word::from_text(letters.as_bytes())
        .map_err(refused)?
        .word;
    let lists = lists_keeping(torus, &word).map_err(refused)?;
    let size = size(torus, 4, &word, &[0, 0]).map_err(refused)?;
    write!(
        out,
        "torus 2 by 2, word {letters}: {lists} of 4 mode lists keep it, orbit {size}\n"
    )
}

fn lists_keeping(torus: &Lent<'_>, word: &[u8]) -> Result<usize, Refusal> {
    let mut count: usize = 0;
    for modes in &TORUS_MODES {
        if size(torus, 4, word, modes)? != 0 {
            count += 1;
        }
    }
    Ok(count)
}
