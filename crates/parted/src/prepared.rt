// What is made ready for a part, once for all rows.
ghost use Rattle.std.specs.Prelude.{◌≡◌, ◌*◌, ◌≤◌, ◌<◌, length};
ghost use Rattle.pauli_word.specs.Limits.{max_sites};
ghost use Rattle.permutation.specs.Limits.{target_places, max_generators};
ghost use Rattle.elements.specs.HeldGroup.{HoldsGroup, generators_held};
ghost use Rattle.packed.specs.Packed.{plane_words};
ghost use Rattle.parts.specs.Labels.{Divided};
ghost use Rattle.parted.specs.Steps.{AtHand};

use pauli_word::MAX_SITES;
use permutation::{Lent, MAX_GENERATORS, TARGET_PLACES};
use rotation::shape::Shapes;
use ways::way;
use ways::way::Way;

// A part: how many generators and sites it has, its order, and the way that it takes.
#[derive(Clone, Copy)]
pub struct Part {
    pub generators: usize,
    pub sites: usize,
    pub order: usize,
    pub way: Way,
}

// Lists a part's generators and its sites, fills its tables and finds its way; `members`, `ranks` and `number` are room.
pub fn prepare_in(
    group: &Lent<'_>,
    labels: &[u16],
    owners: &[u16],
    part: usize,
    members: &mut [u16],
    ranks: &mut [u16],
    number: &mut [u16],
    table: &mut [u16],
    own_targets: &mut [u16; TARGET_PLACES],
    own_orders: &mut [u32; MAX_GENERATORS],
    shapes: &mut Shapes,
    masks: &mut [u64],
    site: &mut [u16],
    place: &mut [u16],
) -> Part
    requires tables { HoldsGroup group.now × (length labels.now ≡ group.now.generators) × (length owners.now ≡ max_sites) × (part < group.now.generators) }
    requires divided { Divided group.now.sites (generators_held group.now) labels.now owners.now }
    requires members_len { (length members.old ≡ max_generators) × (length ranks.old ≡ max_generators) × (length number.old ≡ max_sites) × (length table.old ≡ max_sites) }
    requires own_targets_len { (length own_targets.old ≡ target_places) × (length own_orders.old ≡ max_generators) }
    requires strides_len { (length shapes.old.strides ≡ max_generators) × (length shapes.old.rests ≡ max_generators) × (max_generators * plane_words ≤ length masks.old) }
    requires site_len { (length site.old ≡ max_sites) × (length place.old ≡ max_sites) }
    ensures { AtHand group.now.generators group.now.sites (generators_held group.now) labels.now owners.now part table.new
        own_targets.new own_orders.new shapes.new.strides shapes.new.rests masks.new site.new place.new result }
{
    let Lent {
        generators,
        sites,
        ..
    } = *group;
    let k = split::places::list_places(labels, generators, part as u16, members, ranks);
    let m = split::places::list_places(owners, sites, (part + 1) as u16, table, number);
    split::tables::fill_part(
        group,
        labels,
        owners,
        part,
        members,
        ranks,
        k,
        table,
        number,
        m,
        own_targets,
        own_orders,
    );
    let own_group = Lent {
        sites: m,
        generators: k,
        orders: own_orders,
        targets: own_targets,
    };
    let order = elements::index::order(&own_group);
    let found = way::find_way(&own_group, order, shapes, masks, site, place);
    Part {
        generators: k,
        sites: m,
        order,
        way: found,
    }
}

// Makes ready what a part's work on rows takes: its tables, on its own sites under their numbers in `table`, and its way, into lists that are room.
pub fn prepare(
    group: &Lent<'_>,
    labels: &[u16],
    owners: &[u16],
    part: usize,
    table: &mut [u16],
    own_targets: &mut [u16; TARGET_PLACES],
    own_orders: &mut [u32; MAX_GENERATORS],
    shapes: &mut Shapes,
    masks: &mut [u64],
    site: &mut [u16],
    place: &mut [u16],
) -> Part
    requires tables { HoldsGroup group.now × (length labels.now ≡ group.now.generators) × (length owners.now ≡ max_sites) × (part < group.now.generators) }
    requires divided { Divided group.now.sites (generators_held group.now) labels.now owners.now }
    requires table_len { (length table.old ≡ max_sites) × (length own_targets.old ≡ target_places) × (length own_orders.old ≡ max_generators) }
    requires strides_len { (length shapes.old.strides ≡ max_generators) × (length shapes.old.rests ≡ max_generators) × (max_generators * plane_words ≤ length masks.old) }
    requires site_len { (length site.old ≡ max_sites) × (length place.old ≡ max_sites) }
    ensures { AtHand group.now.generators group.now.sites (generators_held group.now) labels.now owners.now part table.new
        own_targets.new own_orders.new shapes.new.strides shapes.new.rests masks.new site.new place.new result }
{
    let mut members = [0u16; MAX_GENERATORS];
    let mut ranks = [0u16; MAX_GENERATORS];
    let mut number = [0u16; MAX_SITES];
    prepare_in(
        group,
        labels,
        owners,
        part,
        &mut members,
        &mut ranks,
        &mut number,
        table,
        own_targets,
        own_orders,
        shapes,
        masks,
        site,
        place,
    )
}
