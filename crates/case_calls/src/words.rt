// Words: read from text and from bytes, written, weighed, compared.
use case_text::commands::OfWord;
use case_text::{fields, hexadecimal, texts};
use lines::Append;
use pauli_word::WORD_BYTES;
use std::alloc::AllocError;
use std::cmp::Ordering;

// The most bytes of a word.
pub const WORD_ROOM: usize = WORD_BYTES + 16;

// A word: its site count, and its bytes, the first `length` of these.
#[derive(Clone, Copy)]
pub struct Word {
    pub n: usize,
    pub bytes: [u8; WORD_ROOM],
    pub length: usize,
}

impl Word {
    pub fn new(n: usize, front: &[u8]) -> Word {
        let mut bytes = [0u8; WORD_ROOM];
        texts::write(front, &mut bytes);
        Word {
            n,
            bytes,
            length: front.len(),
        }
    }

    pub fn front(&self) -> &[u8] {
        self.bytes.get(..self.length).unwrap_or(&self.bytes)
    }
}

// ` TEXT`: its word is in force; after a refusal one of zeros, without sites.
pub fn read(out: &mut Vec<u8>, word: &mut Word, text: &[u8]) -> Result<(), AllocError> {
    match pauli_word::from_text(fields::after_space(text)) {
        Ok(found) => {
            *word = Word::new(found.sites, &found.word);
            lines::number(out, Ok(found.sites))
        }
        Err(why) => {
            *word = Word::new(0, &[0u8; WORD_BYTES]);
            lines::refusal(out, why)
        }
    }
}

// ` N HEX`, or ` N`. The word before stays in force where the text has another form.
pub fn put(out: &mut Vec<u8>, word: &mut Word, text: &[u8]) -> Result<(), AllocError> {
    match of_bytes(text) {
        Some(read) => {
            *word = read;
            write!(out, "set")
        }
        None => write!(out, "?"),
    }
}

fn of_bytes(text: &[u8]) -> Option<Word> {
    let (n, rest) = fields::first(text)?;
    let n = usize::try_from(fields::number(n)?).ok()?;
    let mut list = [0u8; WORD_ROOM];
    let bytes = hexadecimal::read(fields::after_space(rest), &mut list)?;
    Some(Word::new(n, bytes))
}

// Puts the word in force in the old form.
pub fn make_old(out: &mut Vec<u8>, word: &mut Word) -> Result<(), AllocError> {
    *word = Word::new(word.n, &texts::old_form(&word.bytes));
    write!(out, "set")
}

// What the calls on a word answer.
pub fn answer(
    out: &mut Vec<u8>,
    n: usize,
    word: &[u8],
    call: OfWord<'_>,
) -> Result<(), AllocError> {
    match call {
        OfWord::Text => text(out, n, word),
        OfWord::Weight => lines::number(out, pauli_word::weight(n, word)),
        OfWord::Compare(bytes) => compare_bytes(out, n, word, fields::after_space(bytes)),
        OfWord::CompareText(text) => compare_text(out, n, word, fields::after_space(text)),
    }
}

fn text(out: &mut Vec<u8>, n: usize, word: &[u8]) -> Result<(), AllocError> {
    match pauli_word::to_text(n, word) {
        Ok(written) => lines::letters(out, &written),
        Err(why) => lines::refusal(out, why),
    }
}

fn compare_bytes(out: &mut Vec<u8>, n: usize, word: &[u8], text: &[u8]) -> Result<(), AllocError> {
    let mut list = [0u8; WORD_ROOM];
    match hexadecimal::read(text, &mut list) {
        Some(other) => compare(out, n, word, other),
        None => write!(out, "?"),
    }
}

// With zeros where the text is refused.
fn compare_text(out: &mut Vec<u8>, n: usize, word: &[u8], text: &[u8]) -> Result<(), AllocError> {
    match pauli_word::from_text(text) {
        Ok(other) => compare(out, n, word, &other.word),
        Err(_) => compare(out, n, word, &[0u8; WORD_BYTES]),
    }
}

fn compare(out: &mut Vec<u8>, n: usize, word: &[u8], other: &[u8]) -> Result<(), AllocError> {
    match pauli_word::compare(n, word, other) {
        Ok(Ordering::Less) => write!(out, "less"),
        Ok(Ordering::Equal) => write!(out, "same"),
        Ok(Ordering::Greater) => write!(out, "greater"),
        Err(why) => lines::refusal(out, why),
    }
}
