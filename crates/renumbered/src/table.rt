// The table of numbers: how it is filled, and the test of what it must hold. The test alone is promised: whatever a table holds, one that passes makes a grid of
// the group.
ghost use Rattle.std.specs.Prelude.{◌≡◌, true, ℕ, ◌+◌, ◌*◌, ◌≤◌, ◌<◌, length, get_or};
ghost use Rattle.pauli_word.specs.Limits.{max_sites};
ghost use Rattle.permutation.specs.Limits.{target_places, max_generators};
ghost use Rattle.action.specs.Index.{order_of};
ghost use Rattle.elements.specs.HeldGroup.{HoldsGroup, generators_held};
ghost use Rattle.packed.specs.Packed.{rotated};
ghost use Rattle.renumbered.specs.Renumbered.{at, Renumbered};

use pauli_word::MAX_SITES;
use permutation::Lent;

// Gives a number to a site, if it is one.
fn put_number(sites: usize, a: usize, to: u16, site: &mut [u16], place: &mut [u16])
    requires { (sites ≤ max_sites) × (a < max_sites) × (length site.old ≡ max_sites) × (length place.old ≡ max_sites) }
{
    let q = to as usize;
    if q < sites {
        site[a] = to;
        place[q] = a as u16;
    }
}

// Gives a number to the site that a generator sends the site of another number to.
fn number_next(
    targets: &[u16],
    sites: usize,
    g: usize,
    before: usize,
    a: usize,
    site: &mut [u16],
    place: &mut [u16],
)
    requires targets_len { (length targets.now ≡ target_places) × (g < max_generators) × (sites ≤ max_sites) }
    requires before_lt_max_sites { (before < max_sites) × (a < max_sites) × (length site.old ≡ max_sites) × (length place.old ≡ max_sites) }
{
    let from = site[before] as usize;
    if from < sites {
        put_number(sites, a, targets[MAX_SITES * g + from], site, place);
    }
}

// Numbers along one axis: the sites of the numbers from `stride` on and below `round`, counted from `start`, each by the generator from the one a stride before.
fn fill_axis(
    targets: &[u16],
    sites: usize,
    g: usize,
    start: usize,
    stride: usize,
    round: usize,
    site: &mut [u16],
    place: &mut [u16],
)
    requires targets_len { (length targets.now ≡ target_places) × (g < max_generators) × (sites ≤ max_sites) }
    requires site_len { (length site.old ≡ max_sites) × (length place.old ≡ max_sites) }
    requires round_bound { start + round ≤ max_sites }
{
    for h in stride..round {
        number_next(
            targets,
            sites,
            g,
            start + h - stride,
            start + h,
            site,
            place,
        );
    }
}

// Numbers one block: `base` and what the indices make of it, from number `start` on.
fn fill_block(
    group: &Lent<'_>,
    order: usize,
    base: usize,
    start: usize,
    site: &mut [u16],
    place: &mut [u16],
)
    requires tables { HoldsGroup group.now }
    requires order_value { order ≡ order_of (generators_held group.now) }
    requires site_len { (length site.old ≡ max_sites) × (length place.old ≡ max_sites) }
    requires order_bound { (start + order ≤ max_sites) × (base < max_sites) }
{
    let Lent {
        targets,
        orders,
        generators,
        sites,
    } = *group;
    put_number(sites, start, base as u16, site, place);
    let mut stride: usize = 1;
    for g in 0..generators {
        let round = stride * (orders[g] as usize);
        fill_axis(targets, sites, g, start, stride, round, site, place);
        stride = round;
    }
}

// Numbers the block of a site from number `start` on, if the site has no number and there is room; which number is the next.
fn number_block(
    group: &Lent<'_>,
    order: usize,
    q: usize,
    start: usize,
    site: &mut [u16],
    place: &mut [u16],
) -> usize
    requires tables { HoldsGroup group.now }
    requires order_value { order ≡ order_of (generators_held group.now) }
    requires site_len { (length site.old ≡ max_sites) × (length place.old ≡ max_sites) }
    requires start_le_sites { (start ≤ group.now.sites) × (q < group.now.sites) }
    ensures { result ≤ group.now.sites }
{
    let Lent { sites, .. } = *group;
    if place[q] as usize != sites {
        return start;
    }
    if sites - start < order {
        return start;
    }
    fill_block(group, order, q, start, site, place);
    start + order
}

// Numbers the sites that are marked as having no number.
fn number_free(group: &Lent<'_>, order: usize, site: &mut [u16], place: &mut [u16])
    requires tables { HoldsGroup group.now }
    requires order_value { order ≡ order_of (generators_held group.now) }
    requires site_len { (length site.old ≡ max_sites) × (length place.old ≡ max_sites) }
{
    let Lent { sites, .. } = *group;
    let mut start: usize = 0;
    for q in 0..sites {
        start = number_block(group, order, q, start, site, place);
    }
}

// Numbers the sites: block after block, each from the first site that has no number yet.
pub fn number_sites(group: &Lent<'_>, order: usize, site: &mut [u16], place: &mut [u16])
    requires tables { HoldsGroup group.now }
    requires order_value { order ≡ order_of (generators_held group.now) }
    requires site_len { (length site.old ≡ max_sites) × (length place.old ≡ max_sites) }
{
    let Lent { sites, .. } = *group;
    for q in 0..sites {
        place[q] = sites as u16;
    }
    number_free(group, order, site, place);
}

// Whether each table undoes the other on so many places.
pub fn undo_each_other(sites: usize, site: &[u16], place: &[u16]) -> bool
    requires { (sites ≤ length site.now) × (sites ≤ length place.now) }
    ensures { result ≡ true → (a : ℕ) → a < sites
        → (at site.now a < sites) × (at place.now a < sites)
        × (at place.now (at site.now a) ≡ a) × (at site.now (at place.now a) ≡ a) }
{
    for a in 0..sites {
        let q = site[a] as usize;
        let b = place[a] as usize;
        if sites <= q || sites <= b {
            return false;
        }
        if place[q] as usize != a || site[b] as usize != a {
            return false;
        }
    }
    true
}

// Whether a generator does to the numbers what the rotation by a stride inside blocks does.
pub fn carries(
    targets: &[u16],
    sites: usize,
    g: usize,
    stride: usize,
    block: usize,
    site: &[u16],
) -> bool
    requires targets_len { (length targets.now ≡ target_places) × (g < max_generators) × (sites ≤ max_sites) × (length site.now ≡ max_sites) }
    requires block_nonzero { (0 < block) × (stride ≤ block) × (block ≤ max_sites) }
    requires by_index { (a : ℕ) → a < sites → at site.now a < sites }
    ensures { result ≡ true → (a : ℕ) → a < sites → at site.now (rotated stride block a) ≡ get_or targets.now (max_sites * g + at site.now a) 0 }
{
    let mut inside: usize = 0;
    for a in 0..sites {
        let next = a - inside + rotation::shape::round(inside + stride, block);
        let q = site[a] as usize;
        if sites <= next || site[next] != targets[MAX_SITES * g + q] {
            return false;
        }
        inside = rotation::shape::round(inside + 1, block);
    }
    true
}

// Whether a table makes a grid of the group.
pub fn is_renumbered(group: &Lent<'_>, order: usize, site: &[u16], place: &[u16]) -> bool
    requires tables { HoldsGroup group.now }
    requires order_value { order ≡ order_of (generators_held group.now) }
    requires site_len { (length site.now ≡ max_sites) × (length place.now ≡ max_sites) × (order ≤ max_sites) }
    ensures { result ≡ true → Renumbered group.now.sites (generators_held group.now) site.now place.now }
{
    let Lent {
        targets,
        orders,
        generators,
        sites,
    } = *group;
    if sites % order != 0 || !undo_each_other(sites, site, place) {
        return false;
    }
    let mut stride: usize = 1;
    for g in 0..generators {
        let block = stride * (orders[g] as usize);
        if !carries(targets, sites, g, stride, block, site) {
            return false;
        }
        stride = block;
    }
    true
}
