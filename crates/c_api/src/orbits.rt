// Orbits: least words, of one word and of many, the indices that lead back from them, the words that indices make, orbit lists and walks.
ghost use Rattle.std.specs.Prelude.{◌≡◌, false, length};
ghost use Rattle.outcome.specs.Outcome.{or_else, itself};
ghost use Rattle.pauli_word.specs.Bytes.{bytes_of};
ghost use Rattle.elements.specs.HeldGroup.{encode_all};
ghost use Rattle.orbit.specs.Calls.{canonicalize_outcome, with_index_outcome, with_shift_outcome, word_at_outcome, orbit_list_outcome, begin_outcome, no_walk, next_outcome, entry_word, word_of, index_of, shift_of, walk_in};
ghost use Rattle.row_lists.specs.Rows.{no_word};
ghost use Rattle.orbit.specs.Walked.{step_on};
ghost use Rattle.least_words.specs.Rows.{words_of, indices_of};
ghost use Rattle.orbit.specs.Words.{words_outcome};
ghost use Rattle.group.specs.Value.{group_in};
ghost use Rattle.c_api.specs.Told.{number_of, values_of, index_of_entry, is_finished};

use crate::{VALUES, told};
use pauli_word::WORD_BYTES;
use permutation::{Lent, MAX_GENERATORS, MAX_ORDER, TARGET_PLACES};

// The least word of a word's orbit.
#[unsafe(no_mangle)]
pub extern "C" fn gomurin_canonicalize<'a>(
    sites: usize,
    generators: usize,
    orders: &'a [u32; MAX_GENERATORS],
    targets: &'a [u16; TARGET_PLACES],
    n: usize,
    word: &[u8],
    least: &mut [u8; WORD_BYTES],
    values: &mut [usize; VALUES],
) -> usize
    ensures number { result ≡ number_of (canonicalize_outcome (group_in sites generators orders.now targets.now) n word.now) }
    ensures least { least.new ≡ or_else bytes_of no_word (canonicalize_outcome (group_in sites generators orders.now targets.now) n word.now) }
    ensures values { values.new ≡ values_of (canonicalize_outcome (group_in sites generators orders.now targets.now) n word.now) }
{
    let group = Lent {
        sites,
        generators,
        orders,
        targets,
    };
    told::word(orbit::canonicalize(&group, n, word), least, values)
}

// The same, and the index that leads from the least word back to the word: the inverse of the smallest one that reaches it.
#[unsafe(no_mangle)]
pub extern "C" fn gomurin_canonicalize_with_index<'a>(
    sites: usize,
    generators: usize,
    orders: &'a [u32; MAX_GENERATORS],
    targets: &'a [u16; TARGET_PLACES],
    n: usize,
    word: &[u8],
    least: &mut [u8; WORD_BYTES],
    index: &mut usize,
    values: &mut [usize; VALUES],
) -> usize
    ensures number { result ≡ number_of (with_index_outcome (group_in sites generators orders.now targets.now) n word.now) }
    ensures least { least.new ≡ or_else word_of no_word (with_index_outcome (group_in sites generators orders.now targets.now) n word.now) }
    ensures index { index.new ≡ or_else index_of 0 (with_index_outcome (group_in sites generators orders.now targets.now) n word.now) }
    ensures values { values.new ≡ values_of (with_index_outcome (group_in sites generators orders.now targets.now) n word.now) }
{
    let group = Lent {
        sites,
        generators,
        orders,
        targets,
    };
    match orbit::canonicalize_with_index(&group, n, word) {
        Ok(found) => {
            let bytes = found.word;
            *least = bytes;
            *index = found.index;
            told::answered(values)
        }
        Err(why) => {
            *least = [0u8; WORD_BYTES];
            *index = 0;
            told::refused(why, values)
        }
    }
}

// The same with the counter of that index, into a list with a place for each generator.
#[unsafe(no_mangle)]
pub extern "C" fn gomurin_canonicalize_with_shift<'a>(
    sites: usize,
    generators: usize,
    orders: &'a [u32; MAX_GENERATORS],
    targets: &'a [u16; TARGET_PLACES],
    n: usize,
    word: &[u8],
    least: &mut [u8; WORD_BYTES],
    counter: &mut [u32],
    values: &mut [usize; VALUES],
) -> usize
    ensures number { result ≡ number_of (with_shift_outcome (group_in sites generators orders.now targets.now) n word.now (length counter.old)) }
    ensures least { least.new ≡ or_else word_of no_word (with_shift_outcome (group_in sites generators orders.now targets.now) n word.now (length counter.old)) }
    ensures counter { counter.new ≡ or_else shift_of counter.old (with_shift_outcome (group_in sites generators orders.now targets.now) n word.now (length counter.old)) }
    ensures values { values.new ≡ values_of (with_shift_outcome (group_in sites generators orders.now targets.now) n word.now (length counter.old)) }
{
    let group = Lent {
        sites,
        generators,
        orders,
        targets,
    };
    let answer = orbit::canonicalize_with_shift(&group, n, word, counter);
    told::word(answer, least, values)
}

// The word that an index makes of a word: moved by each generator as often as its digit says.
#[unsafe(no_mangle)]
pub extern "C" fn gomurin_word_at_index<'a>(
    sites: usize,
    generators: usize,
    orders: &'a [u32; MAX_GENERATORS],
    targets: &'a [u16; TARGET_PLACES],
    n: usize,
    word: &[u8],
    index: usize,
    made: &mut [u8; WORD_BYTES],
    values: &mut [usize; VALUES],
) -> usize
    ensures number { result ≡ number_of (word_at_outcome (group_in sites generators orders.now targets.now) n word.now index) }
    ensures made { made.new ≡ or_else bytes_of no_word (word_at_outcome (group_in sites generators orders.now targets.now) n word.now index) }
    ensures values { values.new ≡ values_of (word_at_outcome (group_in sites generators orders.now targets.now) n word.now index) }
{
    let group = Lent {
        sites,
        generators,
        orders,
        targets,
    };
    told::word(orbit::word_at_index(&group, n, word, index), made, values)
}

// The least word of each row's orbit, and the index that leads back. The words are all of one form; the output lists have as many rows, the words in full.
#[unsafe(no_mangle)]
pub extern "C" fn gomurin_canonicalize_words<'a>(
    sites: usize,
    generators: usize,
    orders: &'a [u32; MAX_GENERATORS],
    targets: &'a [u16; TARGET_PLACES],
    words: &[u8],
    representatives: &mut [u8],
    indices: &mut [usize],
    values: &mut [usize; VALUES],
) -> usize
    ensures number { result ≡ number_of (words_outcome (group_in sites generators orders.now targets.now) words.now (length indices.old) (length representatives.old)) }
    ensures representatives { representatives.new ≡ or_else words_of representatives.old (words_outcome (group_in sites generators orders.now targets.now) words.now (length indices.old) (length representatives.old)) }
    ensures indices { indices.new ≡ or_else indices_of indices.old (words_outcome (group_in sites generators orders.now targets.now) words.now (length indices.old) (length representatives.old)) }
    ensures values { values.new ≡ values_of (words_outcome (group_in sites generators orders.now targets.now) words.now (length indices.old) (length representatives.old)) }
{
    let group = Lent {
        sites,
        generators,
        orders,
        targets,
    };
    told::verdict(
        &orbit::canonicalize_words(&group, words, representatives, indices),
        values,
    )
}

// The orbit list: the bytes of one entry for each index, repeats included, into a list of WORD_BYTES times the order.
#[unsafe(no_mangle)]
pub extern "C" fn gomurin_orbit_list<'a>(
    sites: usize,
    generators: usize,
    orders: &'a [u32; MAX_GENERATORS],
    targets: &'a [u16; TARGET_PLACES],
    n: usize,
    word: &[u8],
    list: &mut [u8],
    values: &mut [usize; VALUES],
) -> usize
    ensures number { result ≡ number_of (orbit_list_outcome (group_in sites generators orders.now targets.now) n word.now (length list.old)) }
    ensures list { list.new ≡ or_else encode_all list.old (orbit_list_outcome (group_in sites generators orders.now targets.now) n word.now (length list.old)) }
    ensures values { values.new ≡ values_of (orbit_list_outcome (group_in sites generators orders.now targets.now) n word.now (length list.old)) }
{
    let group = Lent {
        sites,
        generators,
        orders,
        targets,
    };
    told::verdict(&orbit::orbit_list(&group, n, word, list), values)
}

// Begins a walk over a word's orbit, from the group and the word: the word and the index of its next step.
#[unsafe(no_mangle)]
pub extern "C" fn gomurin_orbit<'a>(
    sites: usize,
    generators: usize,
    orders: &'a [u32; MAX_GENERATORS],
    targets: &'a [u16; TARGET_PLACES],
    n: usize,
    word: &[u8],
    at: &mut [u8; WORD_BYTES],
    index: &mut usize,
    values: &mut [usize; VALUES],
) -> usize
    ensures number { result ≡ number_of (begin_outcome (group_in sites generators orders.now targets.now) n word.now) }
    ensures at { at.new ≡ (or_else itself no_walk (begin_outcome (group_in sites generators orders.now targets.now) n word.now)).word }
    ensures index { index.new ≡ (or_else itself no_walk (begin_outcome (group_in sites generators orders.now targets.now) n word.now)).index }
    ensures values { values.new ≡ values_of (begin_outcome (group_in sites generators orders.now targets.now) n word.now) }
{
    let group = Lent {
        sites,
        generators,
        orders,
        targets,
    };
    match orbit::lent::orbit(&group, n, word) {
        Ok(begun) => {
            let bytes = begun.at;
            *at = bytes;
            *index = begun.index;
            told::answered(values)
        }
        Err(why) => {
            *at = [0u8; WORD_BYTES];
            *index = MAX_ORDER + 1;
            told::refused(why, values)
        }
    }
}

// A step of a walk: the entry's word and index, and the walk after it. After the last entry it answers finished and changes nothing of the walk.
#[unsafe(no_mangle)]
pub extern "C" fn gomurin_next<'a>(
    sites: usize,
    generators: usize,
    orders: &'a [u32; MAX_GENERATORS],
    targets: &'a [u16; TARGET_PLACES],
    at: &mut [u8; WORD_BYTES],
    index: &mut usize,
    word: &mut [u8; WORD_BYTES],
    entry: &mut usize,
    finished: &mut bool,
    values: &mut [usize; VALUES],
) -> usize
    ensures number { result ≡ number_of (next_outcome (walk_in (group_in sites generators orders.now targets.now) at.old index.old)) }
    ensures at { at.new ≡ (step_on (walk_in (group_in sites generators orders.now targets.now) at.old index.old)).word }
    ensures index { index.new ≡ (step_on (walk_in (group_in sites generators orders.now targets.now) at.old index.old)).index }
    ensures word { word.new ≡ or_else (entry_word (walk_in (group_in sites generators orders.now targets.now) at.old index.old)) no_word (next_outcome (walk_in (group_in sites generators orders.now targets.now) at.old index.old)) }
    ensures entry { entry.new ≡ or_else index_of_entry 0 (next_outcome (walk_in (group_in sites generators orders.now targets.now) at.old index.old)) }
    ensures finished { finished.new ≡ or_else is_finished false (next_outcome (walk_in (group_in sites generators orders.now targets.now) at.old index.old)) }
    ensures values { values.new ≡ values_of (next_outcome (walk_in (group_in sites generators orders.now targets.now) at.old index.old)) }
{
    let group = Lent {
        sites,
        generators,
        orders,
        targets,
    };
    let moved = orbit::lent::next(&group, *at, *index);
    let answer = moved.answer;
    let number = told::step(answer, word, entry, finished, values);
    let after = moved.at;
    *at = after;
    *index = moved.index;
    number
}
