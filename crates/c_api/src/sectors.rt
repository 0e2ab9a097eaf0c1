// Sectors: phase numerators, and which words modes keep, of one word and of many.
ghost use Rattle.std.specs.Prelude.{◌≡◌, false, length};
ghost use Rattle.outcome.specs.Outcome.{or_else, itself};
ghost use Rattle.group.specs.Value.{generators_of, group_in};
ghost use Rattle.row_lists.specs.Rows.{no_word};
ghost use Rattle.momentum.specs.Calls.{numerator_outcome, table_outcome, sector_outcome, row_counter};
ghost use Rattle.decisions.specs.Decisions.{row_word};
ghost use Rattle.momentum.specs.Words.{sector_words_outcome};
ghost use Rattle.sector_rows.specs.Rows.{sector_words, sector_indices, sector_sizes};
ghost use Rattle.c_api.specs.Told.{number_of, values_of, row_size, is_kept, drop_index};

use crate::{VALUES, told};
use pauli_word::WORD_BYTES;
use permutation::{Lent, MAX_GENERATORS, TARGET_PLACES};

// The numerator of a counter: the sum of (k c mod o) (M / o) over the generators, mod M, with M the phase modulus. Modes and digits may be any; they are
// reduced.
#[unsafe(no_mangle)]
pub extern "C" fn gomurin_character_numerator<'a>(
    sites: usize,
    generators: usize,
    orders: &'a [u32; MAX_GENERATORS],
    targets: &'a [u16; TARGET_PLACES],
    modes: &[i32],
    counter: &[u32],
    numerator: &mut usize,
    values: &mut [usize; VALUES],
) -> usize
    ensures number { result ≡ number_of (numerator_outcome (group_in sites generators orders.now targets.now) modes.now counter.now) }
    ensures numerator { numerator.new ≡ or_else itself 0 (numerator_outcome (group_in sites generators orders.now targets.now) modes.now counter.now) }
    ensures values { values.new ≡ values_of (numerator_outcome (group_in sites generators orders.now targets.now) modes.now counter.now) }
{
    let group = Lent {
        sites,
        generators,
        orders,
        targets,
    };
    told::number(
        momentum::character_numerator(&group, modes, counter),
        numerator,
        values,
    )
}

// The numerators of all indices, generator 0 fastest, into a list with an entry for each.
#[unsafe(no_mangle)]
pub extern "C" fn gomurin_character_table<'a>(
    sites: usize,
    generators: usize,
    orders: &'a [u32; MAX_GENERATORS],
    targets: &'a [u16; TARGET_PLACES],
    modes: &[i32],
    list: &mut [usize],
    values: &mut [usize; VALUES],
) -> usize
    ensures number { result ≡ number_of (table_outcome (group_in sites generators orders.now targets.now) modes.now (length list.old)) }
    ensures list { list.new ≡ or_else itself list.old (table_outcome (group_in sites generators orders.now targets.now) modes.now (length list.old)) }
    ensures values { values.new ≡ values_of (table_outcome (group_in sites generators orders.now targets.now) modes.now (length list.old)) }
{
    let group = Lent {
        sites,
        generators,
        orders,
        targets,
    };
    told::verdict(&momentum::character_table(&group, modes, list), values)
}

// Whether modes keep a word. A kept word comes with the least word of its orbit, the counter of the index that leads from there back to the word, into a
// list with a place for each generator, and the orbit size. A dropped one comes with the smallest index that fixes it with a numerator other than 0; its
// least word and size are zeros, and the counter stays. That index is 0 of a kept word.
#[unsafe(no_mangle)]
pub extern "C" fn gomurin_canonicalize_in_sector<'a>(
    sites: usize,
    generators: usize,
    orders: &'a [u32; MAX_GENERATORS],
    targets: &'a [u16; TARGET_PLACES],
    n: usize,
    word: &[u8],
    modes: &[i32],
    least: &mut [u8; WORD_BYTES],
    counter: &mut [u32],
    size: &mut usize,
    kept: &mut bool,
    dropped_by: &mut usize,
    values: &mut [usize; VALUES],
) -> usize
    ensures number { result ≡ number_of (sector_outcome (group_in sites generators orders.now targets.now) n word.now modes.now (length counter.old)) }
    ensures least { least.new ≡ or_else row_word no_word (sector_outcome (group_in sites generators orders.now targets.now) n word.now modes.now (length counter.old)) }
    ensures counter { counter.new ≡ or_else (row_counter (generators_of (group_in sites generators orders.now targets.now)) counter.old) counter.old (sector_outcome (group_in sites generators orders.now targets.now) n word.now modes.now (length counter.old)) }
    ensures size { size.new ≡ or_else row_size 0 (sector_outcome (group_in sites generators orders.now targets.now) n word.now modes.now (length counter.old)) }
    ensures kept { kept.new ≡ or_else is_kept false (sector_outcome (group_in sites generators orders.now targets.now) n word.now modes.now (length counter.old)) }
    ensures index { dropped_by.new ≡ or_else drop_index 0 (sector_outcome (group_in sites generators orders.now targets.now) n word.now modes.now (length counter.old)) }
    ensures values { values.new ≡ values_of (sector_outcome (group_in sites generators orders.now targets.now) n word.now modes.now (length counter.old)) }
{
    let group = Lent {
        sites,
        generators,
        orders,
        targets,
    };
    let answer = momentum::canonicalize_in_sector(&group, n, word, modes, counter);
    told::sector(answer, least, size, kept, dropped_by, values)
}

// Whether modes keep the words of rows. The words are all of one form; the output lists have as many rows, the words in full. A kept row comes with the
// least word of its orbit, the index that leads from there back to its word, and the orbit size; a dropped one with a zero word, the smallest index that
// fixes it with a numerator other than 0, and the size 0.
#[unsafe(no_mangle)]
pub extern "C" fn gomurin_sector_words<'a>(
    sites: usize,
    generators: usize,
    orders: &'a [u32; MAX_GENERATORS],
    targets: &'a [u16; TARGET_PLACES],
    modes: &[i32],
    words: &[u8],
    representatives: &mut [u8],
    indices: &mut [usize],
    sizes: &mut [usize],
    values: &mut [usize; VALUES],
) -> usize
    ensures number { result ≡ number_of (sector_words_outcome (group_in sites generators orders.now targets.now) modes.now words.now (length indices.old) (length representatives.old) (length sizes.old)) }
    ensures representatives { representatives.new ≡ or_else sector_words representatives.old (sector_words_outcome (group_in sites generators orders.now targets.now) modes.now words.now (length indices.old) (length representatives.old) (length sizes.old)) }
    ensures indices { indices.new ≡ or_else sector_indices indices.old (sector_words_outcome (group_in sites generators orders.now targets.now) modes.now words.now (length indices.old) (length representatives.old) (length sizes.old)) }
    ensures sizes { sizes.new ≡ or_else sector_sizes sizes.old (sector_words_outcome (group_in sites generators orders.now targets.now) modes.now words.now (length indices.old) (length representatives.old) (length sizes.old)) }
    ensures values { values.new ≡ values_of (sector_words_outcome (group_in sites generators orders.now targets.now) modes.now words.now (length indices.old) (length representatives.old) (length sizes.old)) }
{
    let group = Lent {
        sites,
        generators,
        orders,
        targets,
    };
    told::verdict(
        &momentum::sector_words(&group, modes, words, representatives, indices, sizes),
        values,
    )
}
