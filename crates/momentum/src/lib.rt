// Momentum sectors of a group of site permutations: the phase numerators of a mode list, and which words it keeps. A mode is an integer momentum
// along a generator; its wavenumber is 2 pi mode / order. A character's phase is numerator / phase modulus of a turn.
//
// No call here asks anything of its caller: bad input is refused by number, and lent lists are then as they were.
#![tactic(auto)]

mod calls;
mod rows;

ghost use Rattle.std.specs.Prelude.{◌≡◌, length};
ghost use Rattle.outcome.specs.Outcome.{outcome_of, on_answer, or_else, done, itself};
ghost use Rattle.momentum.specs.Calls.{numerator_outcome, table_outcome, sector_outcome, sector_of, row_counter};
ghost use Rattle.momentum.specs.Words.{sector_words_outcome};
ghost use Rattle.sector_rows.specs.Rows.{sector_words, sector_indices, sector_sizes};
ghost use Rattle.group.specs.Value.{generators_of, group_lent};

use outcome::Refusal;
use pauli_word::WORD_BYTES;
use permutation::Lent;

// A word that modes keep: the least word of its orbit, and how many different words that has.
#[derive(Clone, Copy)]
pub struct InSector {
    pub word: [u8; WORD_BYTES],
    pub size: usize,
}

// What modes make of a word.
#[derive(Clone, Copy)]
pub enum Sector {
    // They keep it.
    Kept(InSector),
    // They drop it: this is the smallest index that fixes the word with a numerator other than 0.
    Dropped(usize),
}

// The numerator of a counter: the sum of (k c mod o) (M / o) over the generators, mod M, with M the phase modulus.
// Modes and digits may be any; they are reduced.
pub fn character_numerator(
    group: &Lent<'_>,
    modes: &[i32],
    counter: &[u32],
) -> Result<usize, Refusal>
    ensures answer { outcome_of result ≡ numerator_outcome (group_lent group.now) modes.now counter.now }
{
    group::inner::value_checked(group)?;
    calls::numerator_of(group, modes, counter)
}

// The numerators of all indices, generator 0 fastest, into a list with an entry for each.
pub fn character_table(group: &Lent<'_>, modes: &[i32], list: &mut [usize]) -> Result<(), Refusal>
    ensures answer { outcome_of result ≡ on_answer done (table_outcome (group_lent group.now) modes.now (length list.old)) }
    ensures list { list.new ≡ or_else itself list.old (table_outcome (group_lent group.now) modes.now (length list.old)) }
{
    group::inner::value_checked(group)?;
    calls::table_of(group, modes, list)
}

// Whether modes keep a word: dropped exactly if some index that fixes it has a numerator other than 0. A kept word comes with the least word of
// its orbit, the counter of the index that leads from there back to the word, into a list with a place for each generator, and the orbit size; a
// dropped one with the smallest such index, and the list stays.
// On a grid the indices that lead to the least word tell it; else one traversal of the group, up to the first index that drops the word.
pub fn canonicalize_in_sector(
    group: &Lent<'_>,
    n: usize,
    word: &[u8],
    modes: &[i32],
    counter: &mut [u32],
) -> Result<Sector, Refusal>
    ensures answer { outcome_of result ≡ on_answer sector_of (sector_outcome (group_lent group.now) n word.now modes.now (length counter.old)) }
    ensures counter { counter.new ≡ or_else (row_counter (generators_of (group_lent group.now)) counter.old) counter.old (sector_outcome (group_lent group.now) n word.now modes.now (length counter.old)) }
{
    orbit::inner::word_call_checked(group, n, word)?;
    let full = pauli_word::inner::in_full(word);
    calls::sector_of(group, &full, modes, counter)
}

// Whether modes keep many words, with the group checked once. Row i of `words`, which all have one form, is decided as `canonicalize_in_sector` decides
// it. A kept row has the least word of its orbit, in full, in row i of `representatives`, the index that leads from there back to the word in place i
// of `indices`, and the orbit size in place i of `sizes`; a dropped one has zeros for a word, the index that drops it, and size 0. `indices` has as many
// places as there are rows. Every row is tested before anything is written.
pub fn sector_words(
    group: &Lent<'_>,
    modes: &[i32],
    words: &[u8],
    representatives: &mut [u8],
    indices: &mut [usize],
    sizes: &mut [usize],
) -> Result<(), Refusal>
    ensures answer { outcome_of result ≡ on_answer done (sector_words_outcome (group_lent group.now) modes.now words.now (length indices.old) (length representatives.old) (length sizes.old)) }
    ensures representatives { representatives.new ≡ or_else sector_words representatives.old (sector_words_outcome (group_lent group.now) modes.now words.now (length indices.old) (length representatives.old) (length sizes.old)) }
    ensures indices { indices.new ≡ or_else sector_indices indices.old (sector_words_outcome (group_lent group.now) modes.now words.now (length indices.old) (length representatives.old) (length sizes.old)) }
    ensures sizes { sizes.new ≡ or_else sector_sizes sizes.old (sector_words_outcome (group_lent group.now) modes.now words.now (length indices.old) (length representatives.old) (length sizes.old)) }
{
    rows::rows_checked(
        group,
        modes,
        words,
        indices.len(),
        representatives.len(),
        sizes.len(),
    )?;
    let size = row_lists::checks::row_size(words.len(), indices.len());
    sector_rows::rows::place_rows(group, modes, words, size, representatives, indices, sizes);
    Ok(())
}
