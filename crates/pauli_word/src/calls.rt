// What the calls come to once their checks have passed, and the checks of two words. Whoever calls a function here owes its `requires`.
ghost use Rattle.std.specs.Prelude.{◌≡◌, ◌-◌, [], ◌∷◌, ◌++◌, length, replicate};
ghost use Rattle.pauli_word.specs.Limits.{max_sites};
ghost use Rattle.outcome.specs.Outcome.{verdict, outcome_of};
ghost use Rattle.pauli_word.specs.Word.{weight};
ghost use Rattle.pauli_word.specs.Bytes.{AcceptedWord, EitherLength, letters_in};
ghost use Rattle.pauli_word.specs.Text.{spell};
ghost use Rattle.pauli_word.specs.Calls.{bit_above, compare_checks};

use crate::{MAX_SITES, inner, letter};
use outcome::Refusal;

// The checks of two words of n sites: 1, 15 of either, 36 of either, 17 of either.
pub fn both_checked(n: usize, a: &[u8], b: &[u8]) -> Result<(), Refusal>
    ensures { outcome_of result ≡ verdict (compare_checks n a.now b.now) }
{
    if MAX_SITES < n {
        return Err(Refusal::TooManySites);
    }
    if !inner::either_length(a.len()) {
        return Err(Refusal::WordLength);
    }
    if !inner::either_length(b.len()) {
        return Err(Refusal::WordLength);
    }
    if inner::past_old(n, a.len()) {
        return Err(Refusal::OldWordSites);
    }
    if inner::past_old(n, b.len()) {
        return Err(Refusal::OldWordSites);
    }
    both_clear(n, a, b)
}

// The last of them: 17 of either.
pub fn both_clear(n: usize, a: &[u8], b: &[u8]) -> Result<(), Refusal>
    requires { EitherLength (length a.now) × EitherLength (length b.now) }
    ensures { outcome_of result ≡ verdict (bit_above n a.now ∷ bit_above n b.now ∷ []) }
{
    if inner::clear_above(n, a) {
        if inner::clear_above(n, b) {
            return Ok(());
        }
    }
    Err(Refusal::BitAboveSites)
}

// The text of an accepted word, and zeros after it.
pub fn spelled(n: usize, word: &[u8]) -> [u8; MAX_SITES]
    requires { AcceptedWord n word.now }
    ensures { result ≡ spell (letters_in n word.now) ++ replicate (max_sites - n) 0 }
{
    let mut text = [0u8; MAX_SITES];
    for q in 0..n {
        let s = inner::site_at(word, q);
        text[q] = letter::spelled(s.x, s.z);
    }
    text
}

// The weight of an accepted word: one for each letter other than I.
pub fn weighed(n: usize, word: &[u8]) -> usize
    requires { AcceptedWord n word.now }
    ensures { result ≡ weight (letters_in n word.now) }
{
    let mut sum: usize = 0;
    for q in 0..n {
        let s = inner::site_at(word, q);
        if letter::spelled(s.x, s.z) != b'I' {
            sum += 1;
        }
    }
    sum
}
