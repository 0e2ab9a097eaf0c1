// Groups made of a buyer's list and of lattices, once the first checks have passed. Whoever calls a function here owes its `requires`.
ghost use Rattle.std.specs.Prelude.{◌≡◌, false, ◌≤◌, length};
ghost use Rattle.outcome.specs.Outcome.{outcome_of};
ghost use Rattle.pauli_word.specs.Limits.{max_sites};
ghost use Rattle.permutation.specs.Limits.{max_generators};
ghost use Rattle.permutation.specs.Generators.{ends_inside, perms_of};
ghost use Rattle.group.specs.Value.{try_from_outcome};
ghost use Rattle.group.specs.Calls.{axes_outcome};

use crate::Group;
use outcome::Refusal;
use permutation::{Lent, MAX_GENERATORS, TARGET_PLACES};

// The group of a list whose counts have been checked: 5 to 13.
pub fn made(sites: usize, list: &[u32], orders: &[u32], count: usize) -> Result<Group, Refusal>
    requires { (sites ≤ max_sites) × (ends_inside list.now ≡ false) × (count ≡ length (perms_of list.now)) × (count ≤ max_generators) × (count ≡ length orders.now) }
    ensures { outcome_of result ≡ try_from_outcome sites list.now orders.now }
{
    let mut targets = [0u16; TARGET_PLACES];
    generators::list::fill_targets(list, sites, &mut targets)?;
    let mut declared = [0u32; MAX_GENERATORS];
    generators::list::copy(orders, &mut declared[..count]);
    generators::tables::group_fault(&Lent {
        sites,
        generators: count,
        orders: &declared,
        targets: &targets,
    })?;
    Ok(Group {
        sites,
        generators: count,
        orders: declared,
        targets,
    })
}

// The group of a lattice with sides a, b and c, and a shift along each of the first axes: 26, 27, or the group.
pub fn lattice(a: usize, b: usize, c: usize, axes: usize) -> Result<Group, Refusal>
    requires { axes ≤ 3 }
    ensures { outcome_of result ≡ axes_outcome a b c axes }
{
    let sites = generators::lattice::sites_of(a, b, c)?;
    let sides = [a, b, c];
    let mut targets = [0u16; TARGET_PLACES];
    let mut orders = [0u32; MAX_GENERATORS];
    generators::lattice::fill_shifts(&sides[0..axes], sites, &mut targets, &mut orders);
    Ok(Group {
        sites,
        generators: axes,
        orders,
        targets,
    })
}
