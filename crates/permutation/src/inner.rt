// Permutations of sites: the faults of a list of targets, pairs that do not commute, divisors and multiples, the product of orders. Whoever calls
// a function here owes its `requires`.
ghost use Rattle.std.specs.Prelude.{◌≡◌, not, [], ℕ, ◌+◌, ◌*◌, ◌≤◌, ◌<◌, length, get_or, take};
ghost use Rattle.action.specs.Arithmetic.{gcd as gcdOf, lcm as lcmOf};
ghost use Rattle.outcome.specs.Outcome.{outcome_of, alone};
ghost use Rattle.pauli_word.specs.Limits.{max_sites};
ghost use Rattle.permutation.specs.Limits.{max_generators, target_places};
ghost use Rattle.permutation.specs.Generators.{targets_check, pairs_check, rows_of};
ghost use Rattle.permutation.specs.Parts.{product_outcome};

use crate::{Lent, MAX_WIDE};
use outcome::Refusal;
use pauli_word::MAX_SITES;

// The first target of a generator that is not below the site count, 6, or came before, 7.
pub fn first_fault(generator: usize, perm: &[u32], sites: usize) -> Result<(), Refusal>
    requires { sites ≤ max_sites }
    ensures { outcome_of result ≡ alone (targets_check sites generator [] perm.now) }
{
    let mut seen = [0u8; MAX_SITES];
    for target in perm {
        let t = *target as usize;
        if sites <= t {
            return Err(Refusal::TargetOutOfRange(generator, t));
        }
        if seen[t] == 1 {
            return Err(Refusal::DuplicateTarget(generator, t));
        }
        seen[t] = 1;
    }
    Ok(())
}

// Whether stored targets are a permutation of the sites: none at fault in 6 or 7, whichever generator they are of.
pub fn permutes(perm: &[u16], sites: usize) -> bool
    requires { sites ≤ max_sites }
    ensures { (generator : ℕ) → result ≡ not (targets_check sites generator [] perm.now).broken }
{
    let mut seen = [0u8; MAX_SITES];
    for target in perm {
        let t = *target as usize;
        if sites <= t {
            return false;
        }
        if seen[t] == 1 {
            return false;
        }
        seen[t] = 1;
    }
    true
}

// The greatest common divisor.
pub fn gcd(a: u64, b: u64) -> u64
    ensures { result ≡ gcdOf a b }
{
    let mut x = a;
    let mut y = b;
    // A while: Euclid's steps are as many as the numbers ask.
    while y != 0 {
        let r = x % y;
        x = y;
        y = r;
    }
    x
}

// The least common multiple of two numbers of which the first fits 32 bits and the second 16. Where the first is 1, gcd takes one step.
pub fn lcm(a: u64, b: u64) -> u64
    requires { (0 < a) × (a < 4294967296) × (0 < b) × (b < 65536) }
    ensures { result ≡ lcmOf a b }
{
    a / gcd(b, a) * b
}

// 11: the first two generators, left then right, that differ at some site when they are applied in either order.
pub fn first_pair(group: &Lent<'_>) -> Result<(), Refusal>
    requires targets_len { (length group.now.targets.now ≡ target_places) × (group.now.generators ≤ max_generators) × (group.now.sites ≤ max_sites) }
    requires by_index { (g q : ℕ) → g < group.now.generators → q < group.now.sites → get_or group.now.targets.now (max_sites * g + q) 0 < group.now.sites }
    ensures { outcome_of result ≡ alone (pairs_check group.now.sites 0 (rows_of group.now.generators group.now.sites group.now.targets.now)) }
{
    let Lent {
        targets,
        generators,
        sites,
        ..
    } = *group;
    let mut found = Ok(());
    'pairs: for left in 0..generators {
        for right in left + 1..generators {
            for q in 0..sites {
                let l = targets[MAX_SITES * left + q] as usize;
                let r = targets[MAX_SITES * right + q] as usize;
                if targets[MAX_SITES * left + r] != targets[MAX_SITES * right + l] {
                    found = Err(Refusal::NonCommuting(left, right));
                    break 'pairs;
                }
            }
        }
    }
    found
}

// The product of the first orders, none of which is 0, or 12.
pub fn group_order(orders: &[u32], generators: usize) -> Result<usize, Refusal>
    requires generators_in_bounds { generators ≤ length orders.now }
    requires by_index { (g : ℕ) → g < generators → 0 < get_or orders.now g 0 }
    ensures { outcome_of result ≡ product_outcome (take generators orders.now) }
{
    let mut order: u64 = 1;
    for g in 0..generators {
        let o = orders[g] as u64;
        if MAX_WIDE / o < order {
            return Err(Refusal::GroupOrderOverflow);
        }
        order = order * o;
    }
    Ok(order as usize)
}
