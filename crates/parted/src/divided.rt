// Whether a group is divided into parts, and whether it is of use to take it part by part. That it is of use is no promise.
ghost use Rattle.std.specs.Prelude.{◌≡◌, true, ℕ, ◌≤◌, ◌<◌, length, get_or};
ghost use Rattle.pauli_word.specs.Limits.{max_sites};
ghost use Rattle.action.specs.Index.{order_of};
ghost use Rattle.elements.specs.HeldGroup.{HoldsGroup, generators_held};
ghost use Rattle.parts.specs.Labels.{Divided};

use pauli_word::MAX_SITES;
use permutation::Lent;

// Makes nobody the owner of every site.
fn clear(owners: &mut [u16]) {
    owners.fill(0);
}

// Whether two generators have different labels.
fn has_two(labels: &[u16]) -> bool {
    for g in 1..labels.len() {
        if labels[g] != labels[0] {
            return true;
        }
    }
    false
}

// Whether nobody owns one of the sites.
fn has_fixed(sites: usize, owners: &[u16]) -> bool
    requires { sites ≤ length owners.now }
{
    owners[..sites].iter().any(|owner| *owner == 0)
}

// Whether a table of other numbers makes a grid of the group; `site` and `place` are room for it.
fn is_numbered(group: &Lent<'_>, order: usize, site: &mut [u16], place: &mut [u16]) -> bool
    requires tables { HoldsGroup group.now }
    requires order_value { order ≡ order_of (generators_held group.now) }
    requires site_len { (length site.old ≡ max_sites) × (length place.old ≡ max_sites) × (order ≤ max_sites) }
{
    renumbered::table::number_sites(group, order, site, place);
    renumbered::table::is_renumbered(group, order, site, place)
}

// Whether the group acts freely.
fn acts_freely(group: &Lent<'_>) -> bool
    requires { HoldsGroup group.now }
{
    let order = elements::index::order(group);
    if MAX_SITES < order {
        return false;
    }
    let mut site = [0u16; MAX_SITES];
    let mut place = [0u16; MAX_SITES];
    is_numbered(group, order, &mut site, &mut place)
}

// Labels of the generators and owners of the sites; whether they divide the group, and it is of use to take it part by part: there are two parts, or a site
// that nothing moves, or the group acts freely.
pub fn find_parts(group: &Lent<'_>, labels: &mut [u16], owners: &mut [u16]) -> bool
    requires tables { HoldsGroup group.now }
    requires labels_len { (length labels.old ≡ group.now.generators) × (length owners.old ≡ max_sites) }
    ensures labels { result ≡ true → (g : ℕ) → g < group.now.generators → get_or labels.new g 0 < group.now.generators }
    ensures divided { result ≡ true → Divided group.now.sites (generators_held group.now) labels.new owners.new }
{
    let Lent { targets, sites, .. } = *group;
    split::divide::label(targets, sites, labels);
    clear(owners);
    split::divide::own_sites(group, labels, owners);
    if !split::divide::is_divided(group, labels, owners) {
        return false;
    }
    if has_two(labels) || has_fixed(sites, owners) {
        return true;
    }
    acts_freely(group)
}
