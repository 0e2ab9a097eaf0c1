// What the calls come to once their first checks have passed, of a word in full. Whoever calls a function here owes its `requires`.
ghost use Rattle.std.specs.Prelude.{◌≡◌, length};
ghost use Rattle.outcome.specs.Outcome.{answer, verdict, on_answer, or_else, done, itself, outcome_of};
ghost use Rattle.pauli_word.specs.Bytes.{AcceptedWord, word_in};
ghost use Rattle.group.specs.Value.{generators_of, group_lent};
ghost use Rattle.group.specs.Calls.{value_checks};
ghost use Rattle.orbit.specs.Calls.{word_call_checks};
ghost use Rattle.momentum.specs.Calls.{numerator_outcome, table_outcome, sector_outcome, sector_of, row_counter};
ghost use Rattle.decisions.specs.Decisions.{decision};

use crate::{InSector, Sector};
use decisions::phase;
use decisions::placement::Placement;
use outcome::Refusal;
use permutation::{Lent, MAX_GENERATORS, TARGET_PLACES};

// 18, 20, then the numerator of a counter.
pub fn numerator_of(group: &Lent<'_>, modes: &[i32], counter: &[u32]) -> Result<usize, Refusal>
    requires { verdict (value_checks (group_lent group.now)) ≡ answer tt }
    ensures { outcome_of result ≡ numerator_outcome (group_lent group.now) modes.now counter.now }
{
    let Lent { generators, .. } = *group;
    if modes.len() != generators {
        return Err(Refusal::ModeCount);
    }
    if counter.len() != generators {
        return Err(Refusal::CounterLength);
    }
    let modulus = elements::index::phase_modulus(group);
    Ok(phase::numerator(group, modulus, modes, counter))
}

// 18, 21, then the numerators of all indices.
pub fn table_of(group: &Lent<'_>, modes: &[i32], list: &mut [usize]) -> Result<(), Refusal>
    requires { verdict (value_checks (group_lent group.now)) ≡ answer tt }
    ensures answer { outcome_of result ≡ on_answer done (table_outcome (group_lent group.now) modes.now (length list.old)) }
    ensures list { list.new ≡ or_else itself list.old (table_outcome (group_lent group.now) modes.now (length list.old)) }
{
    let Lent { generators, .. } = *group;
    if modes.len() != generators {
        return Err(Refusal::ModeCount);
    }
    if list.len() != elements::index::order(group) {
        return Err(Refusal::ListLength);
    }
    let modulus = elements::index::phase_modulus(group);
    phase::fill_table(group, modulus, modes, list);
    Ok(())
}

// 18, 21, then the decision.
pub fn sector_of(
    group: &Lent<'_>,
    word: &[u8],
    modes: &[i32],
    counter: &mut [u32],
) -> Result<Sector, Refusal>
    requires word_value { verdict (word_call_checks (group_lent group.now) group.now.sites word.now) ≡ answer tt }
    requires accepted_word { AcceptedWord group.now.sites word.now }
    ensures answer { outcome_of result ≡ on_answer sector_of (sector_outcome (group_lent group.now) group.now.sites word.now modes.now (length counter.old)) }
    ensures counter { counter.new ≡ or_else (row_counter (generators_of (group_lent group.now)) counter.old) counter.old (sector_outcome (group_lent group.now) group.now.sites word.now modes.now (length counter.old)) }
{
    if modes.len() != group.generators {
        return Err(Refusal::ModeCount);
    }
    if counter.len() != group.generators {
        return Err(Refusal::ListLength);
    }
    Ok(decided(group, word, modes, counter))
}

// The decision, where the lists have their lengths.
pub fn decided(group: &Lent<'_>, word: &[u8], modes: &[i32], counter: &mut [u32]) -> Sector
    requires word_value { verdict (word_call_checks (group_lent group.now) group.now.sites word.now) ≡ answer tt }
    requires accepted_word { AcceptedWord group.now.sites word.now }
    requires modes_len { (length modes.now ≡ group.now.generators) × (length counter.old ≡ group.now.generators) }
    ensures answer { result ≡ sector_of (decision (generators_of (group_lent group.now)) modes.now (word_in group.now.sites word.now)) }
    ensures counter { counter.new ≡ row_counter (generators_of (group_lent group.now)) counter.old (decision (generators_of (group_lent group.now)) modes.now (word_in group.now.sites word.now)) }
{
    let found = sector_rows::word::placement_of(group, word, modes);
    let answer = found.answer;
    let Placement::Kept(index, size) = answer else {
        return Sector::Dropped(answer.index());
    };
    elements::index::fill_counter(group, index, counter);
    let least = found.word;
    Sector::Kept(InSector { word: least, size })
}
