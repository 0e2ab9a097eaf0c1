// A buyer's generator list: how many generators it writes (2), and its permutations (5 to 7).
// Whoever calls a function here owes its `requires`.
ghost use Rattle.std.specs.Prelude.{◌≡◌, false, ℕ, ◌≤◌, ◌<◌, length, get_or, replicate};
ghost use Rattle.pauli_word.specs.Limits.{max_sites};
ghost use Rattle.outcome.specs.Outcome.{alone, outcome_of};
ghost use Rattle.permutation.specs.Limits.{target_places, max_generators};
ghost use Rattle.permutation.specs.Generators.{ends_inside, perms_of, perm_check, perms_check};
ghost use Rattle.generators.specs.Tables.{placed_all, passing};
ghost use Rattle.generators.specs.Parts.{scan_outcome};

use outcome::Refusal;
use pauli_word::MAX_SITES;

// How many generators a list writes, or 2.
pub fn count_generators(list: &[u32]) -> Result<usize, Refusal>
    ensures { outcome_of result ≡ scan_outcome list.now }
{
    let mut at = 0;
    let mut count = 0;
    // A while: each generator says where the next one begins.
    while at < list.len() {
        let n = list[at] as usize;
        let rest = list.len() - at - 1;
        if rest < n {
            return Err(Refusal::ListEndsInside);
        }
        at = at + 1 + n;
        count += 1;
    }
    Ok(count)
}

// Copies src over dst.
pub fn copy(src: &[u32], dst: &mut [u32])
    requires { length src.now ≡ length dst.old }
    ensures { dst.new ≡ src.now }
{
    dst.copy_from_slice(src);
}

// Stores targets, each of at most MAX_SITES, in places of 16 bits.
pub fn store(src: &[u32], dst: &mut [u16])
    requires src_len { length src.now ≡ length dst.old }
    requires by_index { (q : ℕ) → q < length src.now → get_or src.now q 0 ≤ max_sites }
    ensures { dst.new ≡ src.now }
{
    for i in 0..src.len() {
        dst[i] = src[i] as u16;
    }
}

// The first fault of a generator, 5 to 7.
pub fn fault(generator: usize, perm: &[u32], sites: usize) -> Result<(), Refusal>
    requires { sites ≤ max_sites }
    ensures { outcome_of result ≡ alone (perm_check sites generator perm.now) }
{
    if perm.len() != sites {
        return Err(Refusal::PermutationLength(generator, perm.len()));
    }
    permutation::inner::first_fault(generator, perm, sites)
}

// The targets of a list's generators, MAX_SITES places each, over zeros, up to the first fault, 5 to 7.
pub fn fill_targets(list: &[u32], sites: usize, targets: &mut [u16]) -> Result<(), Refusal>
    requires sites_le_max_sites { sites ≤ max_sites }
    requires list_value { (ends_inside list.now ≡ false) × (length (perms_of list.now) ≤ max_generators) }
    requires targets_value { targets.old ≡ replicate target_places 0 }
    ensures answer { outcome_of result ≡ alone (perms_check sites 0 (perms_of list.now)) }
    ensures targets { targets.new ≡ placed_all (passing sites 0 (perms_of list.now)) }
{
    let mut at = 0;
    let mut g = 0;
    // A while: each generator says where the next one begins.
    while at < list.len() {
        let n = list[at] as usize;
        let start = at + 1;
        let end = start + n;
        fault(g, &list[start..end], sites)?;
        let place = MAX_SITES * g;
        let stop = place + sites;
        store(&list[start..end], &mut targets[place..stop]);
        at = end;
        g += 1;
    }
    Ok(())
}
