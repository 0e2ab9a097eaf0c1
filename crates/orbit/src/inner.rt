// The checks of a call on a group and a word.
ghost use Rattle.std.specs.Prelude.{◌≡◌};
ghost use Rattle.outcome.specs.Outcome.{verdict, outcome_of};
ghost use Rattle.group.specs.Value.{group_lent};
ghost use Rattle.orbit.specs.Calls.{word_call_checks};

use outcome::Refusal;
use permutation::{Lent, MAX_GENERATORS, TARGET_PLACES};

// The checks of a group value and a word: 1, 14, 15, 36, 16, 17.
pub fn word_call_checked(group: &Lent<'_>, n: usize, word: &[u8]) -> Result<(), Refusal>
    ensures { outcome_of result ≡ verdict (word_call_checks (group_lent group.now) n word.now) }
{
    let Lent { sites, .. } = *group;
    if pauli_word::MAX_SITES < sites {
        return Err(Refusal::TooManySites);
    }
    if pauli_word::MAX_SITES < n {
        return Err(Refusal::TooManySites);
    }
    if !group::inner::is_group(group) {
        return Err(Refusal::InvalidValue);
    }
    if !pauli_word::inner::either_length(word.len()) {
        return Err(Refusal::WordLength);
    }
    if pauli_word::inner::past_old(n, word.len()) {
        return Err(Refusal::OldWordSites);
    }
    if n != sites {
        return Err(Refusal::OtherSites);
    }
    if pauli_word::inner::clear_above(n, word) {
        Ok(())
    } else {
        Err(Refusal::BitAboveSites)
    }
}
