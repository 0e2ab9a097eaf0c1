// What the crates above need of a group value, by its parts, which are lent. Whoever calls a function here owes its `requires`.
ghost use Rattle.std.specs.Prelude.{◌≡◌, ◌≤◌};
ghost use Rattle.outcome.specs.Outcome.{verdict, outcome_of};
ghost use Rattle.pauli_word.specs.Limits.{max_sites};
ghost use Rattle.group.specs.Value.{no_group, is_group, group_lent};
ghost use Rattle.group.specs.Calls.{value_checks};

use crate::Group;
use outcome::Refusal;
use permutation::{Lent, MAX_GENERATORS, TARGET_PLACES};

// The value in the place of a refused group, for C: it says one generator more than there may be.
pub fn no_group() -> Group
    ensures { result ≡ no_group }
{
    Group {
        sites: 0,
        generators: MAX_GENERATORS + 1,
        orders: [0u32; MAX_GENERATORS],
        targets: [0u16; TARGET_PLACES],
    }
}

// Whether a value of at most MAX_SITES sites is one that accepted generators give.
pub fn is_group(group: &Lent<'_>) -> bool
    requires { group.now.sites ≤ max_sites }
    ensures { result ≡ is_group (group_lent group.now) }
{
    generators::tables::hold_group(group)
}

// The checks of a group value: 1, 14.
pub fn value_checked(group: &Lent<'_>) -> Result<(), Refusal>
    ensures { outcome_of result ≡ verdict (value_checks (group_lent group.now)) }
{
    let Lent { sites, .. } = *group;
    if pauli_word::MAX_SITES < sites {
        return Err(Refusal::TooManySites);
    }
    if is_group(group) {
        Ok(())
    } else {
        Err(Refusal::InvalidValue)
    }
}
