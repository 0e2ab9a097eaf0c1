// What the calls with a check of their own come to once their first checks have passed, of a word in full. Whoever calls a function here owes its `requires`.
ghost use Rattle.std.specs.Prelude.{◌≡◌, length};
ghost use Rattle.outcome.specs.Outcome.{answer, verdict, outcome_of, on_answer, done, or_else};
ghost use Rattle.pauli_word.specs.Bytes.{AcceptedWord, bytes_of};
ghost use Rattle.elements.specs.HeldGroup.{encode_all};
ghost use Rattle.group.specs.Value.{group_lent};
ghost use Rattle.orbit.specs.Calls.{word_call_checks, with_shift_outcome, word_of, shift_of, word_at_outcome, orbit_list_outcome};

use outcome::Refusal;
use pauli_word::WORD_BYTES;
use permutation::{Lent, MAX_GENERATORS, TARGET_PLACES};

// 21, then the least word with the counter of the index back.
pub fn shift_of(
    group: &Lent<'_>,
    word: &[u8],
    counter: &mut [u32],
) -> Result<[u8; WORD_BYTES], Refusal>
    requires word_value { verdict (word_call_checks (group_lent group.now) group.now.sites word.now) ≡ answer tt }
    requires accepted_word { AcceptedWord group.now.sites word.now }
    ensures answer { outcome_of result ≡ on_answer word_of (with_shift_outcome (group_lent group.now) group.now.sites word.now (length counter.old)) }
    ensures counter { counter.new ≡ or_else shift_of counter.old (with_shift_outcome (group_lent group.now) group.now.sites word.now (length counter.old)) }
{
    if counter.len() != group.generators {
        return Err(Refusal::ListLength);
    }
    let found = least_words::word::least_of(group, word);
    elements::index::fill_counter(group, found.index, counter);
    Ok(found.word)
}

// 19, then the word that the index makes.
pub fn word_of(group: &Lent<'_>, word: &[u8], index: usize) -> Result<[u8; WORD_BYTES], Refusal>
    requires word_value { verdict (word_call_checks (group_lent group.now) group.now.sites word.now) ≡ answer tt }
    requires accepted_word { AcceptedWord group.now.sites word.now }
    ensures { outcome_of result ≡ on_answer bytes_of (word_at_outcome (group_lent group.now) group.now.sites word.now index) }
{
    if elements::index::order(group) <= index {
        return Err(Refusal::IndexRange);
    }
    Ok(at_index::word::word_at(group, index, word))
}

// 21, then the orbit list.
pub fn orbit_of(group: &Lent<'_>, word: &[u8], list: &mut [u8]) -> Result<(), Refusal>
    requires word_value { verdict (word_call_checks (group_lent group.now) group.now.sites word.now) ≡ answer tt }
    requires accepted_word { AcceptedWord group.now.sites word.now }
    ensures answer { outcome_of result ≡ on_answer done (orbit_list_outcome (group_lent group.now) group.now.sites word.now (length list.old)) }
    ensures list { list.new ≡ or_else encode_all list.old (orbit_list_outcome (group_lent group.now) group.now.sites word.now (length list.old)) }
{
    let order = elements::index::order(group);
    if list.len() != WORD_BYTES * order {
        return Err(Refusal::ListLength);
    }
    paths::moves::fill_orbit(group, order, word, list);
    Ok(())
}
