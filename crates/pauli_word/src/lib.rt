// Pauli words: read from text, written as text, weighed and compared. A word has a site count n and its bytes, the X plane and then
// the Z plane; site q is bit q mod 8 of a plane's byte q div 8. Letters by (X bit, Z bit): I 00, Z 01, X 10, Y 11.
//
// A word is handed over in either of two forms: in full, WORD_BYTES long, or as words were stored before, OLD_WORD_BYTES long, for at most
// OLD_SITES sites; the bytes that a plane lacks are 0. A word is handed back in full.
//
// No call here asks anything of its caller: bad input is refused by number, and nothing else is answered with it.
#![tactic(auto)]

mod calls;
pub mod inner;
mod letter;
mod plane;

ghost use Rattle.std.specs.Prelude.{◌≡◌};
ghost use Rattle.outcome.specs.Outcome.{on_answer, outcome_of};
ghost use Rattle.pauli_word.specs.Calls.{from_text_outcome, text_word, to_text_outcome, word_text, weight_outcome, compare_outcome};

use outcome::Refusal;
use std::cmp::Ordering;

// The bytes of one plane.
pub const PLANE_BYTES: usize = 256;

// The most sites of a word: a bit of a plane for each.
pub const MAX_SITES: usize = 8 * PLANE_BYTES;

// The bytes of a word: the X plane and then the Z plane.
pub const WORD_BYTES: usize = 2 * PLANE_BYTES;

// The bytes of one plane, the sites and the bytes of a word of the old form.
pub const OLD_PLANE_BYTES: usize = 32;

pub const OLD_SITES: usize = 8 * OLD_PLANE_BYTES;

pub const OLD_WORD_BYTES: usize = 2 * OLD_PLANE_BYTES;

// A word read from text: how many letters it has, and its bytes.
#[derive(Clone, Copy)]
pub struct TextWord {
    pub sites: usize,
    pub word: [u8; WORD_BYTES],
}

// A word written as text: how many letters it has, and the text, with zeros after it.
#[derive(Clone, Copy)]
pub struct WordText {
    pub letters: usize,
    pub text: [u8; MAX_SITES],
}

// The word that a text writes, a letter a byte.
pub fn from_text(text: &[u8]) -> Result<TextWord, Refusal>
    ensures { outcome_of result ≡ on_answer text_word (from_text_outcome text.now) }
{
    let n = text.len();
    if MAX_SITES < n {
        return Err(Refusal::TooManyLetters);
    }
    let mut word = [0u8; WORD_BYTES];
    for i in 0..n {
        let byte = text[i];
        let Some(site) = letter::read(byte) else {
            return Err(Refusal::NotALetter(i));
        };
        inner::put_site(&mut word, i, site.x, site.z);
    }
    Ok(TextWord { sites: n, word })
}

// The text of a word of n sites, a letter a byte and zeros after it.
pub fn to_text(n: usize, word: &[u8]) -> Result<WordText, Refusal>
    ensures { outcome_of result ≡ on_answer word_text (to_text_outcome n word.now) }
{
    inner::checked(n, word)?;
    let full = inner::in_full(word);
    Ok(WordText {
        letters: n,
        text: calls::spelled(n, &full),
    })
}

// The weight of a word of n sites: the number of sites whose letter is other than I.
pub fn weight(n: usize, word: &[u8]) -> Result<usize, Refusal>
    ensures answer { outcome_of result ≡ weight_outcome n word.now }
{
    inner::checked(n, word)?;
    let full = inner::in_full(word);
    Ok(calls::weighed(n, &full))
}

// How word a stands to word b, both of n sites, each in either form: at the first bit that differs, reading the X plane from site 0 and then the
// Z plane, the lesser has 0.
pub fn compare(n: usize, a: &[u8], b: &[u8]) -> Result<Ordering, Refusal>
    ensures answer { outcome_of result ≡ compare_outcome n a.now b.now }
{
    calls::both_checked(n, a, b)?;
    let left = inner::in_full(a);
    let right = inner::in_full(b);
    Ok(inner::compare_bytes(&left, &right))
}
