// The tables of a part: the generators with its label, on the sites that it owns, under their numbers in its list.
ghost use Rattle.std.specs.Prelude.{◌≡◌, ℕ, suc, ◌+◌, ◌*◌, ◌≤◌, ◌<◌, eqb, length, get_or};
ghost use Rattle.pauli_word.specs.Limits.{max_sites};
ghost use Rattle.permutation.specs.Limits.{max_generators, target_places};
ghost use Rattle.elements.specs.HeldGroup.{generators_in, Tables, HoldsGroup, generators_held};
ghost use Rattle.parts.specs.Labels.{chosen as chosenBy, Divided};
ghost use Rattle.parts.specs.Numbered.{Carried};
ghost use Rattle.split.specs.Places.{Listed};

use pauli_word::MAX_SITES;
use permutation::Lent;

// Writes the targets of a generator at the sites of a table, as the numbers that they have in it.
pub fn fill_row(targets: &[u16], g: usize, m: usize, table: &[u16], number: &[u16], row: &mut [u16])
    requires targets_len { (length targets.now ≡ target_places) × (g < max_generators) × (length number.now ≡ max_sites) }
    requires m_in_bounds { (m ≤ length table.now) × (m ≤ length row.old) × (length row.old ≡ max_sites) }
    requires by_index { (a : ℕ) → a < m → (get_or table.now a 0 < max_sites) × (get_or targets.now (max_sites * g + get_or table.now a 0) 0 < max_sites) }
    ensures { (a : ℕ) → a < m → get_or row.new a 0 ≡ get_or number.now (get_or targets.now (max_sites * g + get_or table.now a 0) 0) 0 }
{
    for a in 0..m {
        let q = table[a] as usize;
        let target = targets[MAX_SITES * g + q] as usize;
        row[a] = number[target];
    }
}

// Fills the tables of a part: `members` lists its k generators, `table` its m sites, and `number` has the number of each of these.
pub fn fill_part(
    group: &Lent<'_>,
    labels: &[u16],
    owners: &[u16],
    part: usize,
    members: &[u16],
    ranks: &[u16],
    k: usize,
    table: &[u16],
    number: &[u16],
    m: usize,
    part_targets: &mut [u16],
    part_orders: &mut [u32],
)
    requires tables_2 { HoldsGroup group.now }
    requires divided { Divided group.now.sites (generators_held group.now) labels.now owners.now }
    requires labels_len { (length labels.now ≡ group.now.generators) × (length number.now ≡ max_sites) × (length table.now ≡ max_sites) × (group.now.generators ≤ length members.now) }
    requires listed { Listed group.now.generators k (λ g. get_or labels.now g 0) part (λ j. get_or members.now j 0) (λ g. get_or ranks.now g 0) }
    requires listed_2 { Listed group.now.sites m (λ q. get_or owners.now q 0) (suc part) (λ a. get_or table.now a 0) (λ q. get_or number.now q 0) }
    requires part_targets_len { (length part_targets.old ≡ target_places) × (length part_orders.old ≡ max_generators) }
    ensures tables { Tables k m part_targets.new part_orders.new }
    ensures carried { Carried m (λ a. get_or table.now a 0) (chosenBy (λ l. eqb l part) labels.now (generators_held group.now)) (generators_in k m part_targets.new part_orders.new) }
{
    let Lent {
        targets,
        orders,
        ..
    } = *group;
    for j in 0..k {
        let g = members[j] as usize;
        let start = MAX_SITES * j;
        let end = start + MAX_SITES;
        fill_row(targets, g, m, table, number, &mut part_targets[start..end]);
        part_orders[j] = orders[g];
    }
}
