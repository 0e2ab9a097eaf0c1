// Indices of a group that has passed its checks. Whoever calls a function here owes its `requires`.
ghost use Rattle.std.specs.Prelude.{◌≡◌, length};
ghost use Rattle.outcome.specs.Outcome.{answer, verdict, outcome_of, on_answer, done, itself, or_else};
ghost use Rattle.group.specs.Value.{group_lent};
ghost use Rattle.group.specs.Calls.{value_checks, counter_outcome, index_outcome, invert_outcome};

use outcome::Refusal;
use permutation::{Lent, MAX_GENERATORS, TARGET_PLACES};

// 19, 21, then the digits.
pub fn counter_of(group: &Lent<'_>, index: usize, counter: &mut [u32]) -> Result<(), Refusal>
    requires { verdict (value_checks (group_lent group.now)) ≡ answer tt }
    ensures answer { outcome_of result ≡ on_answer done (counter_outcome (group_lent group.now) index (length counter.old)) }
    ensures counter { counter.new ≡ or_else itself counter.old (counter_outcome (group_lent group.now) index (length counter.old)) }
{
    let Lent { generators, .. } = *group;
    if elements::index::order(group) <= index {
        return Err(Refusal::IndexRange);
    }
    if counter.len() != generators {
        return Err(Refusal::ListLength);
    }
    elements::index::fill_counter(group, index, counter);
    Ok(())
}

// 20, 37, then the index of the digits.
pub fn index_of(group: &Lent<'_>, counter: &[u32]) -> Result<usize, Refusal>
    requires { verdict (value_checks (group_lent group.now)) ≡ answer tt }
    ensures { outcome_of result ≡ index_outcome (group_lent group.now) counter.now }
{
    let Lent { generators, .. } = *group;
    if counter.len() != generators {
        return Err(Refusal::CounterLength);
    }
    if !elements::index::are_digits(group, counter) {
        return Err(Refusal::DigitRange);
    }
    Ok(elements::index::index_of(group, counter))
}

// 19, then the inverse.
pub fn inverse_of(group: &Lent<'_>, index: usize) -> Result<usize, Refusal>
    requires { verdict (value_checks (group_lent group.now)) ≡ answer tt }
    ensures { outcome_of result ≡ invert_outcome (group_lent group.now) index }
{
    if elements::index::order(group) <= index {
        return Err(Refusal::IndexRange);
    }
    Ok(elements::index::invert(group, index))
}
