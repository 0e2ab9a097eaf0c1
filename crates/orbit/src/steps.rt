// The walk over an orbit: its beginning, its checks and its step. Whoever calls a function here owes its `requires`.
ghost use Rattle.std.specs.Prelude.{◌≡◌, length};
ghost use Rattle.outcome.specs.Outcome.{answer, verdict, outcome_of, on_answer, or_else};
ghost use Rattle.pauli_word.specs.Limits.{word_length};
ghost use Rattle.group.specs.Value.{group_lent};
ghost use Rattle.orbit.specs.Calls.{no_walk, walk_in, walk_checks, next_outcome, given_entry, after_entry};

use crate::{Entry, Walk};
use outcome::Refusal;
use pauli_word::WORD_BYTES;
use permutation::{Lent, MAX_GENERATORS, MAX_ORDER, TARGET_PLACES};

// A step of a walk whose group is lent: the entry, none where the walk is over, and the word and the index of the walk after it.
#[derive(Clone, Copy)]
pub struct Moved {
    pub answer: Result<Option<Entry>, Refusal>,
    pub at: [u8; WORD_BYTES],
    pub index: usize,
}

// The walk in the place of a refused one, for C.
pub fn no_walk() -> Walk
    ensures { result ≡ no_walk }
{
    Walk {
        group: group::inner::no_group(),
        word: [0u8; WORD_BYTES],
        index: MAX_ORDER + 1,
    }
}

// The checks of a walk: 1, 14.
pub fn walk_checked(group: &Lent<'_>, at: &[u8], index: usize) -> Result<(), Refusal>
    requires { length at.now ≡ word_length }
    ensures { outcome_of result ≡ verdict (walk_checks (walk_in (group_lent group.now) at.now index)) }
{
    let Lent { sites, .. } = *group;
    group::inner::value_checked(group)?;
    if !pauli_word::inner::clear_above(sites, at) {
        return Err(Refusal::InvalidValue);
    }
    if elements::index::order(group) < index {
        Err(Refusal::InvalidValue)
    } else {
        Ok(())
    }
}

// A step of a checked walk.
pub fn step_of(group: &Lent<'_>, at: [u8; WORD_BYTES], index: usize) -> Moved
    requires { verdict (walk_checks (walk_in (group_lent group.now) at index)) ≡ answer tt }
    ensures answer { outcome_of result.answer ≡ on_answer (given_entry (walk_in (group_lent group.now) at index)) (next_outcome (walk_in (group_lent group.now) at index)) }
    ensures walk { walk_in (group_lent group.now) result.at result.index ≡ or_else (after_entry (walk_in (group_lent group.now) at index)) (walk_in (group_lent group.now) at index) (next_outcome (walk_in (group_lent group.now) at index)) }
{
    if elements::index::order(group) <= index {
        return Moved {
            answer: Ok(None),
            at,
            index,
        };
    }
    let mut next = at;
    paths::moves::step(group, index, &mut next);
    Moved {
        answer: Ok(Some(Entry { index, word: at })),
        at: next,
        index: index + 1,
    }
}
