// Which part each generator is of, and each site. How labels are found promises nothing: the test of them does.
ghost use Rattle.std.specs.Prelude.{◌≡◌, ◌⊎◌, true, ℕ, suc, ◌+◌, ◌*◌, ◌≤◌, ◌<◌, length, get_or};
ghost use Rattle.pauli_word.specs.Limits.{max_sites};
ghost use Rattle.permutation.specs.Limits.{max_generators, target_places};
ghost use Rattle.elements.specs.HeldGroup.{HoldsGroup, generators_held};
ghost use Rattle.parts.specs.Labels.{Divided};

use pauli_word::MAX_SITES;
use permutation::{Lent, MAX_GENERATORS};

// Whether two generators move a common site.
fn meet(targets: &[u16], sites: usize, g: usize, h: usize) -> bool
    requires { (length targets.now ≡ target_places) × (sites ≤ max_sites) × (g < max_generators) × (h < max_generators) }
{
    for q in 0..sites {
        if targets[MAX_SITES * g + q] as usize != q && targets[MAX_SITES * h + q] as usize != q {
            return true;
        }
    }
    false
}

// Puts one label in the place of another.
fn relabel(labels: &mut [u16], from: u16, to: u16) {
    for g in 0..labels.len() {
        if labels[g] == from {
            labels[g] = to;
        }
    }
}

// Gives a generator the label of those before it that it meets, and these one label.
fn label_one(targets: &[u16], sites: usize, g: usize, labels: &mut [u16])
    requires { (length targets.now ≡ target_places) × (sites ≤ max_sites) × (g < length labels.old) × (length labels.old ≤ max_generators) }
{
    labels[g] = g as u16;
    for h in 0..g {
        if meet(targets, sites, g, h) {
            let from = labels[g];
            let to = labels[h];
            relabel(labels, from, to);
        }
    }
}

// A label for each generator, the same for those that move a common site, directly or through others.
pub fn label(targets: &[u16], sites: usize, labels: &mut [u16])
    requires { (length targets.now ≡ target_places) × (sites ≤ max_sites) × (length labels.old ≤ max_generators) }
    ensures { length labels.new ≡ length labels.old }
{
    for g in 0..labels.len() {
        label_one(targets, sites, g, labels);
    }
}

// Makes a generator's part the owner of the sites that it moves; owners count parts from 1.
fn own(targets: &[u16], sites: usize, g: usize, label: u16, owners: &mut [u16])
    requires { (length targets.now ≡ target_places) × (sites ≤ max_sites) × (g < max_generators) × (label < max_generators) × (length owners.old ≡ max_sites) }
{
    for q in 0..sites {
        if targets[MAX_SITES * g + q] as usize != q {
            owners[q] = label + 1;
        }
    }
}

// Makes each generator's part the owner of the sites that it moves; a label that is too large is passed over.
pub fn own_sites(group: &Lent<'_>, labels: &[u16], owners: &mut [u16])
    requires { (length group.now.targets.now ≡ target_places) × (group.now.generators ≤ max_generators) × (group.now.sites ≤ max_sites) × (length labels.now ≡ group.now.generators) × (length owners.old ≡ max_sites) }
    ensures { length owners.new ≡ length owners.old }
{
    let Lent {
        targets,
        generators,
        sites,
        ..
    } = *group;
    for g in 0..generators {
        let label = labels[g];
        if (label as usize) < MAX_GENERATORS {
            own(targets, sites, g, label, owners);
        }
    }
}

// Whether a generator leaves every site but those of its part.
pub fn leaves_others(targets: &[u16], sites: usize, g: usize, label: usize, owners: &[u16]) -> bool
    requires { (length targets.now ≡ target_places) × (sites ≤ max_sites) × (g < max_generators) × (label < max_generators) × (length owners.now ≡ max_sites) }
    ensures { result ≡ true → (q : ℕ) → q < sites → (get_or owners.now q 0 ≡ suc label) ⊎ (get_or targets.now (max_sites * g + q) 0 ≡ q) }
{
    for q in 0..sites {
        if owners[q] as usize != label + 1 && targets[MAX_SITES * g + q] as usize != q {
            return false;
        }
    }
    true
}

// Whether every generator leaves every site but those of its part, and every label is below the number of generators.
pub fn is_divided(group: &Lent<'_>, labels: &[u16], owners: &[u16]) -> bool
    requires tables { HoldsGroup group.now }
    requires labels_len { (length labels.now ≡ group.now.generators) × (length owners.now ≡ max_sites) }
    ensures labels { result ≡ true → (g : ℕ) → g < group.now.generators → get_or labels.now g 0 < group.now.generators }
    ensures divided { result ≡ true → Divided group.now.sites (generators_held group.now) labels.now owners.now }
{
    let Lent {
        targets,
        generators,
        sites,
        ..
    } = *group;
    for g in 0..generators {
        let label = labels[g] as usize;
        if generators <= label || !leaves_others(targets, sites, g, label, owners) {
            return false;
        }
    }
    true
}
