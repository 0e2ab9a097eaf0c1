// A walk whose group is lent and not copied, by its parts. As the walk by value it asks nothing of its caller.
ghost use Rattle.std.specs.Prelude.{◌≡◌};
ghost use Rattle.outcome.specs.Outcome.{outcome_of, on_answer, or_else};
ghost use Rattle.group.specs.Value.{group_lent};
ghost use Rattle.orbit.specs.Calls.{begin_outcome, beginning, walk_in, next_outcome, given_entry, after_entry};

use crate::steps::Moved;
use crate::{inner, steps};
use outcome::Refusal;
use pauli_word::WORD_BYTES;
use permutation::Lent;

// A walk whose group is lent, at its beginning: the word that the first step gives, and the index of that step.
#[derive(Clone, Copy)]
pub struct Beginning {
    pub at: [u8; WORD_BYTES],
    pub index: usize,
}

// Begins a walk over a word's orbit.
pub fn orbit(group: &Lent<'_>, n: usize, word: &[u8]) -> Result<Beginning, Refusal>
    ensures { outcome_of result ≡ on_answer beginning (begin_outcome (group_lent group.now) n word.now) }
{
    inner::word_call_checked(group, n, word)?;
    Ok(Beginning {
        at: pauli_word::inner::in_full(word),
        index: 0,
    })
}

// A step of a walk. After the last entry it answers none and changes nothing.
pub fn next(group: &Lent<'_>, at: [u8; WORD_BYTES], index: usize) -> Moved
    ensures answer { outcome_of result.answer ≡ on_answer (given_entry (walk_in (group_lent group.now) at index)) (next_outcome (walk_in (group_lent group.now) at index)) }
    ensures walk { walk_in (group_lent group.now) result.at result.index ≡ or_else (after_entry (walk_in (group_lent group.now) at index)) (walk_in (group_lent group.now) at index) (next_outcome (walk_in (group_lent group.now) at index)) }
{
    match steps::walk_checked(group, &at, index) {
        Err(why) => Moved {
            answer: Err(why),
            at,
            index,
        },
        Ok(()) => steps::step_of(group, at, index),
    }
}
