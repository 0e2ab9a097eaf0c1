// The checks of rows of words.
ghost use Rattle.std.specs.Prelude.{◌≡◌};
ghost use Rattle.outcome.specs.Outcome.{outcome_of, verdict};
ghost use Rattle.group.specs.Value.{group_lent};
ghost use Rattle.orbit.specs.Words.{words_checks};

use outcome::Refusal;
use permutation::{Lent, MAX_GENERATORS, TARGET_PLACES};

// All checks of a call on rows of words: 1, 14, 22, 23, 36, and then 17 of each row.
pub fn rows_checked(
    group: &Lent<'_>,
    words: &[u8],
    rows: usize,
    representatives: usize,
) -> Result<(), Refusal>
    ensures { outcome_of result ≡ verdict (words_checks (group_lent group.now) words.now rows representatives) }
{
    let Lent { sites, .. } = *group;
    group::inner::value_checked(group)?;
    row_lists::checks::word_lists_checked(sites, words, rows, representatives, rows, rows)
}
