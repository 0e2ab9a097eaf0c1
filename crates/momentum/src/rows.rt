// The checks of a call on rows of words.
ghost use Rattle.std.specs.Prelude.{◌≡◌};
ghost use Rattle.outcome.specs.Outcome.{outcome_of, verdict};
ghost use Rattle.group.specs.Value.{group_lent};
ghost use Rattle.momentum.specs.Words.{sector_words_checks};

use outcome::Refusal;
use permutation::{Lent, MAX_GENERATORS, TARGET_PLACES};

// All checks of a call on rows of words and modes: 1, 14, 18, 22, 23, 36, and then 17 of each row.
pub fn rows_checked(
    group: &Lent<'_>,
    modes: &[i32],
    words: &[u8],
    rows: usize,
    representatives: usize,
    sizes: usize,
) -> Result<(), Refusal>
    ensures { outcome_of result ≡ verdict (sector_words_checks (group_lent group.now) modes.now words.now rows representatives sizes) }
{
    let Lent {
        generators,
        sites,
        ..
    } = *group;
    group::inner::value_checked(group)?;
    if modes.len() != generators {
        return Err(Refusal::ModeCount);
    }
    row_lists::checks::word_lists_checked(sites, words, rows, representatives, rows, sizes)
}
