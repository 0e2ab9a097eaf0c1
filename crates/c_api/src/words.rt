// Words: read from text, written as text, weighed and compared.
ghost use Rattle.std.specs.Prelude.{◌≡◌, length, pos};
ghost use Rattle.outcome.specs.Outcome.{or_else, itself};
ghost use Rattle.pauli_word.specs.Calls.{from_text_outcome, from_text_bytes, to_text_outcome, to_text_bytes, weight_outcome, compare_outcome};
ghost use Rattle.c_api.specs.Told.{number_of, values_of, sign_of};

use crate::{VALUES, told};
use pauli_word::{MAX_SITES, WORD_BYTES};
use std::cmp::Ordering;

// The word that a text writes, a letter a byte, and its site count.
#[unsafe(no_mangle)]
pub extern "C" fn gomurin_from_text(
    text: &[u8],
    sites: &mut usize,
    word: &mut [u8; WORD_BYTES],
    values: &mut [usize; VALUES],
) -> usize
    ensures number { result ≡ number_of (from_text_outcome text.now) }
    ensures sites { sites.new ≡ or_else length 0 (from_text_outcome text.now) }
    ensures word { word.new ≡ from_text_bytes text.now }
    ensures values { values.new ≡ values_of (from_text_outcome text.now) }
{
    match pauli_word::from_text(text) {
        Ok(read) => {
            *sites = read.sites;
            let bytes = read.word;
            *word = bytes;
            told::answered(values)
        }
        Err(why) => {
            *sites = 0;
            *word = [0u8; WORD_BYTES];
            told::refused(why, values)
        }
    }
}

// The text of a word of n sites, a letter a byte and zeros after it, and how many letters.
#[unsafe(no_mangle)]
pub extern "C" fn gomurin_to_text(
    n: usize,
    word: &[u8],
    letters: &mut usize,
    text: &mut [u8; MAX_SITES],
    values: &mut [usize; VALUES],
) -> usize
    ensures number { result ≡ number_of (to_text_outcome n word.now) }
    ensures letters { letters.new ≡ or_else length 0 (to_text_outcome n word.now) }
    ensures text { text.new ≡ to_text_bytes n word.now }
    ensures values { values.new ≡ values_of (to_text_outcome n word.now) }
{
    match pauli_word::to_text(n, word) {
        Ok(written) => {
            *letters = written.letters;
            let bytes = written.text;
            *text = bytes;
            told::answered(values)
        }
        Err(why) => {
            *letters = 0;
            *text = [0u8; MAX_SITES];
            told::refused(why, values)
        }
    }
}

// The weight of a word of n sites: the number of sites whose letter is other than I.
#[unsafe(no_mangle)]
pub extern "C" fn gomurin_weight(
    n: usize,
    word: &[u8],
    weight: &mut usize,
    values: &mut [usize; VALUES],
) -> usize
    ensures number { result ≡ number_of (weight_outcome n word.now) }
    ensures weight { weight.new ≡ or_else itself 0 (weight_outcome n word.now) }
    ensures values { values.new ≡ values_of (weight_outcome n word.now) }
{
    told::number(pauli_word::weight(n, word), weight, values)
}

// How word a stands to word b, both of n sites: -1 less, 0 the same, 1 greater. At the first bit that differs, reading the X plane from site 0 and then
// the Z plane, the lesser has 0.
#[unsafe(no_mangle)]
pub extern "C" fn gomurin_compare(
    n: usize,
    a: &[u8],
    b: &[u8],
    order: &mut i32,
    values: &mut [usize; VALUES],
) -> usize
    ensures number { result ≡ number_of (compare_outcome n a.now b.now) }
    ensures order { order.new ≡ or_else sign_of (pos 0) (compare_outcome n a.now b.now) }
    ensures values { values.new ≡ values_of (compare_outcome n a.now b.now) }
{
    match pauli_word::compare(n, a, b) {
        Ok(found) => {
            *order = sign_of(found);
            told::answered(values)
        }
        Err(why) => {
            *order = 0;
            told::refused(why, values)
        }
    }
}

fn sign_of(order: Ordering) -> i32
    ensures { result ≡ sign_of order }
{
    match order {
        Ordering::Less => -1,
        Ordering::Equal => 0,
        Ordering::Greater => 1,
    }
}
