// What a group does to Pauli words: orbits, least words, the indices that lead back from them, the words that indices make, and the walk over an orbit.
//
// No call here asks anything of its caller: bad input is refused by number, and lent lists are then as they were.
#![tactic(auto)]

mod calls;
pub mod inner;
pub mod lent;
pub mod rows;
pub mod steps;

ghost use Rattle.std.specs.Prelude.{◌≡◌, length};
ghost use Rattle.outcome.specs.Outcome.{outcome_of, on_answer, done, or_else};
ghost use Rattle.pauli_word.specs.Bytes.{bytes_of};
ghost use Rattle.elements.specs.HeldGroup.{encode_all};
ghost use Rattle.group.specs.Value.{group_lent};
ghost use Rattle.least_words.specs.Rows.{words_of, indices_of};
ghost use Rattle.orbit.specs.Words.{words_outcome};
ghost use Rattle.orbit.specs.Calls.{canonicalize_outcome, with_index_outcome, canonical_index, with_shift_outcome, word_at_outcome, orbit_list_outcome, begin_outcome, next_outcome, given_entry, after_entry, word_of, shift_of};

use group::Group;
use lent::Beginning;
use outcome::Refusal;
use pauli_word::WORD_BYTES;
use permutation::Lent;
use steps::Moved;

// The least word of an orbit, and the index that leads from it back to the word.
#[derive(Clone, Copy)]
pub struct CanonicalIndex {
    pub word: [u8; WORD_BYTES],
    pub index: usize,
}

// A walk over a word's orbit: the word that the next step gives, and that step's index. After the last entry the index is the order.
#[derive(Clone, Copy)]
pub struct Walk {
    pub group: Group,
    pub word: [u8; WORD_BYTES],
    pub index: usize,
}

// An entry of a walk: its index, and its word.
#[derive(Clone, Copy)]
pub struct Entry {
    pub index: usize,
    pub word: [u8; WORD_BYTES],
}

// What a step of a walk comes to, none where the walk is over, and the walk after it; refused or over, it is handed back as it was.
#[derive(Clone, Copy)]
pub struct Stepped {
    pub answer: Result<Option<Entry>, Refusal>,
    pub walk: Walk,
}

// The least word of a word's orbit.
pub fn canonicalize(group: &Lent<'_>, n: usize, word: &[u8]) -> Result<[u8; WORD_BYTES], Refusal>
    ensures { outcome_of result ≡ on_answer bytes_of (canonicalize_outcome (group_lent group.now) n word.now) }
{
    let found = canonicalize_with_index(group, n, word)?;
    Ok(found.word)
}

// The least word of a word's orbit, and the index that leads from it back to the word: the inverse of the smallest one that reaches it.
pub fn canonicalize_with_index(
    group: &Lent<'_>,
    n: usize,
    word: &[u8],
) -> Result<CanonicalIndex, Refusal>
    ensures { outcome_of result ≡ on_answer canonical_index (with_index_outcome (group_lent group.now) n word.now) }
{
    inner::word_call_checked(group, n, word)?;
    let full = pauli_word::inner::in_full(word);
    let least = least_words::word::least_of(group, &full);
    let found = least.word;
    Ok(CanonicalIndex {
        word: found,
        index: least.index,
    })
}

// The least word with the counter of that index, into a list with a place for each generator.
pub fn canonicalize_with_shift(
    group: &Lent<'_>,
    n: usize,
    word: &[u8],
    counter: &mut [u32],
) -> Result<[u8; WORD_BYTES], Refusal>
    ensures answer { outcome_of result ≡ on_answer word_of (with_shift_outcome (group_lent group.now) n word.now (length counter.old)) }
    ensures counter { counter.new ≡ or_else shift_of counter.old (with_shift_outcome (group_lent group.now) n word.now (length counter.old)) }
{
    inner::word_call_checked(group, n, word)?;
    let full = pauli_word::inner::in_full(word);
    calls::shift_of(group, &full, counter)
}

// The least words of many words' orbits, and the indices that lead back, with the group checked once. Row i of `words`, which all have one form, is
// answered as `canonicalize_with_index` answers it: the least word, in full, in row i of `representatives`, and the index in place i of `indices`,
// which has as many places as there are rows. Every row is tested before anything is written.
pub fn canonicalize_words(
    group: &Lent<'_>,
    words: &[u8],
    representatives: &mut [u8],
    indices: &mut [usize],
) -> Result<(), Refusal>
    ensures answer { outcome_of result ≡ on_answer done (words_outcome (group_lent group.now) words.now (length indices.old) (length representatives.old)) }
    ensures representatives { representatives.new ≡ or_else words_of representatives.old (words_outcome (group_lent group.now) words.now (length indices.old) (length representatives.old)) }
    ensures indices { indices.new ≡ or_else indices_of indices.old (words_outcome (group_lent group.now) words.now (length indices.old) (length representatives.old)) }
{
    rows::rows_checked(group, words, indices.len(), representatives.len())?;
    let size = row_lists::checks::row_size(words.len(), indices.len());
    least_words::rows::least_rows(group, words, size, representatives, indices);
    Ok(())
}

// The word that an index makes of a word: moved by each generator as often as its digit says. From a least word the index of
// `canonicalize_with_index` makes the word again, and from the word the inverse of that index the least word.
pub fn word_at_index(
    group: &Lent<'_>,
    n: usize,
    word: &[u8],
    index: usize,
) -> Result<[u8; WORD_BYTES], Refusal>
    ensures { outcome_of result ≡ on_answer bytes_of (word_at_outcome (group_lent group.now) n word.now index) }
{
    inner::word_call_checked(group, n, word)?;
    let full = pauli_word::inner::in_full(word);
    calls::word_of(group, &full, index)
}

// The orbit list: the bytes of one entry for each index, repeats included, into a list of WORD_BYTES times the order.
pub fn orbit_list(group: &Lent<'_>, n: usize, word: &[u8], list: &mut [u8]) -> Result<(), Refusal>
    ensures answer { outcome_of result ≡ on_answer done (orbit_list_outcome (group_lent group.now) n word.now (length list.old)) }
    ensures list { list.new ≡ or_else encode_all list.old (orbit_list_outcome (group_lent group.now) n word.now (length list.old)) }
{
    inner::word_call_checked(group, n, word)?;
    let full = pauli_word::inner::in_full(word);
    calls::orbit_of(group, &full, list)
}

// Begins a walk over a word's orbit.
pub fn orbit(group: Group, n: usize, word: &[u8]) -> Result<Walk, Refusal>
    ensures { outcome_of result ≡ begin_outcome group n word.now }
{
    let Beginning { at, index } = lent::orbit(&group.lent(), n, word)?;
    Ok(Walk {
        group,
        word: at,
        index,
    })
}

impl Walk {
    // The entry of this index, and the walk after it. After the last entry it answers none and changes nothing.
    pub fn next(self) -> Stepped
        ensures answer { outcome_of result.answer ≡ on_answer (given_entry self) (next_outcome self) }
        ensures walk { result.walk ≡ or_else (after_entry self) self (next_outcome self) }
    {
        let group = self.group;
        let Moved { answer, at, index } = lent::next(&group.lent(), self.word, self.index);
        Stepped {
            answer,
            walk: Walk {
                group,
                word: at,
                index,
            },
        }
    }
}
