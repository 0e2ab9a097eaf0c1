// Tables of targets and orders: the rules 8 to 13, and which tables hold a group. Whoever calls a function here owes its `requires`.
ghost use Rattle.std.specs.Prelude.{◌≡◌, not, ℕ, ◌≤◌, ◌<◌, length, take};
ghost use Rattle.pauli_word.specs.Limits.{max_sites};
ghost use Rattle.outcome.specs.Outcome.{verdict, alone, outcome_of};
ghost use Rattle.action.specs.Permutation.{Permutes};
ghost use Rattle.permutation.specs.Limits.{target_places, max_generators};
ghost use Rattle.permutation.specs.Generators.{perms_check, orders_check, group_checks, row_at, rows_of};
ghost use Rattle.generators.specs.Tables.{zeros, rests_clear, hold_group};

use outcome::Refusal;
use pauli_word::MAX_SITES;
use permutation::{Lent, MAX_GENERATORS, MAX_ORDER};

// The first fault of the orders, 8 to 10.
pub fn orders_fault(group: &Lent<'_>) -> Result<(), Refusal>
    requires targets_len { (length group.now.targets.now ≡ target_places) × (length group.now.orders.now ≡ max_generators) × (group.now.generators ≤ max_generators) × (group.now.sites ≤ max_sites) }
    requires by_index { (g : ℕ) → g < group.now.generators → Permutes group.now.sites (row_at group.now.sites group.now.targets.now g) }
    ensures { outcome_of result ≡ alone (orders_check 0 (rows_of group.now.generators group.now.sites group.now.targets.now) (take group.now.generators group.now.orders.now)) }
{
    let Lent {
        targets,
        orders,
        generators,
        sites,
    } = *group;
    for g in 0..generators {
        let declared = orders[g] as usize;
        if declared == 0 {
            return Err(Refusal::ZeroOrder(g));
        }
        let start = MAX_SITES * g;
        let end = start + sites;
        let Ok(exact) = permutation::orders::exact_order(g, &targets[start..end]) else {
            return Err(Refusal::PermutationOrderOverflow(g));
        };
        if declared != exact {
            return Err(Refusal::OrderMismatch(g, declared, exact));
        }
    }
    Ok(())
}

// The first fault of permutations with their orders, 8 to 13.
pub fn group_fault(group: &Lent<'_>) -> Result<(), Refusal>
    requires targets_len { (length group.now.targets.now ≡ target_places) × (length group.now.orders.now ≡ max_generators) × (group.now.generators ≤ max_generators) × (group.now.sites ≤ max_sites) }
    requires by_index { (g : ℕ) → g < group.now.generators → Permutes group.now.sites (row_at group.now.sites group.now.targets.now g) }
    ensures { outcome_of result ≡ verdict (group_checks group.now.sites (rows_of group.now.generators group.now.sites group.now.targets.now) (take group.now.generators group.now.orders.now)) }
{
    let Lent {
        orders,
        generators,
        ..
    } = *group;
    orders_fault(group)?;
    permutation::inner::first_pair(group)?;
    let Ok(order) = permutation::inner::group_order(orders, generators) else {
        return Err(Refusal::GroupOrderOverflow);
    };
    if MAX_ORDER < order {
        return Err(Refusal::GroupOrderLimit);
    }
    Ok(())
}

// Whether all targets are 0: none has a bit set. No branch for a target, so that several are looked at in one step.
pub fn all_zero(targets: &[u16]) -> bool
    ensures { result ≡ zeros targets.now }
{
    let mut any = 0u16;
    for i in 0..targets.len() {
        any = any | targets[i];
    }
    any == 0
}

// Whether all orders are 0.
pub fn no_orders(orders: &[u32]) -> bool
    ensures { result ≡ zeros orders.now }
{
    let mut any = 0u32;
    for i in 0..orders.len() {
        any = any | orders[i];
    }
    any == 0
}

// Whether each generator's targets are a permutation of the sites.
pub fn perms_fine(group: &Lent<'_>) -> bool
    requires { (length group.now.targets.now ≡ target_places) × (group.now.generators ≤ max_generators) × (group.now.sites ≤ max_sites) }
    ensures { result ≡ not (perms_check group.now.sites 0 (rows_of group.now.generators group.now.sites group.now.targets.now)).broken }
{
    let Lent {
        targets,
        generators,
        sites,
        ..
    } = *group;
    for g in 0..generators {
        let start = MAX_SITES * g;
        let end = start + sites;
        if !permutation::inner::permutes(&targets[start..end], sites) {
            return false;
        }
    }
    true
}

// Whether the places above the sites are 0, generator by generator.
pub fn rests_clear(group: &Lent<'_>) -> bool
    requires { (length group.now.targets.now ≡ target_places) × (group.now.generators ≤ max_generators) × (group.now.sites ≤ max_sites) }
    ensures { result ≡ rests_clear group.now.generators group.now.sites group.now.targets.now }
{
    let Lent {
        targets,
        generators,
        sites,
        ..
    } = *group;
    for g in 0..generators {
        let start = MAX_SITES * g + sites;
        let end = MAX_SITES * g + MAX_SITES;
        if !all_zero(&targets[start..end]) {
            return false;
        }
    }
    true
}

// Whether tables hold a group of at most MAX_SITES sites: no more than MAX_GENERATORS generators, which break none of the rules 5 to 13, and unused places 0.
pub fn hold_group(group: &Lent<'_>) -> bool
    requires { (length group.now.targets.now ≡ target_places) × (length group.now.orders.now ≡ max_generators) × (group.now.sites ≤ max_sites) }
    ensures { result ≡ hold_group group.now.generators group.now.sites group.now.targets.now group.now.orders.now }
{
    let Lent {
        targets,
        orders,
        generators,
        ..
    } = *group;
    if MAX_GENERATORS < generators {
        return false;
    }
    if !perms_fine(group) {
        return false;
    }
    let Ok(()) = group_fault(group) else {
        return false;
    };
    if !rests_clear(group) {
        return false;
    }
    let unused = MAX_SITES * generators;
    if !all_zero(&targets[unused..]) {
        return false;
    }
    no_orders(&orders[generators..])
}
