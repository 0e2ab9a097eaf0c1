// Rows of words made least part by part.
ghost use Rattle.std.specs.Prelude.{◌≡◌, ℕ, suc, ◌*◌, ◌≤◌, ◌<◌, length, get_or};
ghost use Rattle.pauli_word.specs.Limits.{max_sites, word_length};
ghost use Rattle.pauli_word.specs.Word.{Word};
ghost use Rattle.pauli_word.specs.Bytes.{AcceptedWord, letters_in, bytes_of};
ghost use Rattle.permutation.specs.Limits.{target_places, max_generators};
ghost use Rattle.action.specs.Index.{order_of};
ghost use Rattle.action.specs.Orbit.{least, index_back};
ghost use Rattle.elements.specs.HeldGroup.{generators_in, Tables, HoldsGroup, generators_held};
ghost use Rattle.packed.specs.Packed.{plane_words};
ghost use Rattle.parts.specs.Labels.{Divided};
ghost use Rattle.parts.specs.Numbered.{Numbering};
ghost use Rattle.row_lists.specs.Rows.{row_at};
ghost use Rattle.parted.specs.Steps.{site_of, Stepped, AllStand};
ghost use Rattle.ways.specs.Ways.{Found, room_of, Finds};

use crate::prepared::Part;
use crate::{part, prepared};
use packed::PLANE_WORDS;
use pauli_word::{MAX_SITES, WORD_BYTES};
use permutation::{Lent, MAX_GENERATORS, TARGET_PLACES};
use rotation::planes::MASK_WORDS;
use rotation::shape::Shapes;
use ways::way::Way;

// One part's work on every row.
pub fn part_rows(
    group: &Lent<'_>,
    labels: &[u16],
    part: usize,
    way: Way,
    own_group: &Lent<'_>,
    shapes: &Shapes,
    masks: &[u64],
    site: &[u16],
    place: &[u16],
    order: usize,
    table: &[u16],
    left: &mut [u64],
    representatives: &mut [u8],
    indices: &mut [usize],
)
    requires tables { HoldsGroup group.now × (length labels.now ≡ group.now.generators) }
    requires tables_2 { HoldsGroup own_group.now }
    requires found { Finds way own_group.now order shapes.now masks.now site.now place.now }
    requires order_value { order ≡ order_of (generators_held own_group.now) }
    requires numbering { Numbering group.now.sites own_group.now.sites (site_of table.now) × (own_group.now.sites ≤ length table.now) × (length left.old ≡ room_of way) }
    requires representatives_len { length representatives.old ≡ word_length * length indices.old }
    requires by_index { (i : ℕ) → i < length indices.old → AcceptedWord group.now.sites (row_at representatives.old i) × (get_or indices.old i 0 < order_of (generators_held group.now)) }
    ensures { (i : ℕ) → i < length indices.old
        → Stepped group.now.sites own_group.now.sites (site_of table.now) (generators_held own_group.now) (generators_held group.now) labels.now part
        (row_at representatives.old i) (get_or indices.old i 0) (row_at representatives.new i) (get_or indices.new i 0) }
{
    let Lent { sites, .. } = *group;
    for i in 0..indices.len() {
        let at = WORD_BYTES * i;
        let end = at + WORD_BYTES;
        let row = &mut representatives[at..end];
        let back = part::least_part(
            way, own_group, shapes, masks, site, place, order, table, sites, left, row,
        );
        let whole = split::index::spread(group, labels, part, back);
        indices[i] = indices[i] + whole;
    }
}

// One part's work on every row, by the way that the part takes; a part without generators leaves every row.
pub fn part_by_way(
    group: &Lent<'_>,
    labels: &[u16],
    part: usize,
    ready: Part,
    table: &[u16],
    own_targets: &[u16; TARGET_PLACES],
    own_orders: &[u32; MAX_GENERATORS],
    shapes: &Shapes,
    masks: &[u64],
    site: &[u16],
    place: &[u16],
    representatives: &mut [u8],
    indices: &mut [usize],
)
    requires tables { HoldsGroup group.now × (length labels.now ≡ group.now.generators) }
    requires tables_2 { Tables ready.generators ready.sites own_targets.now own_orders.now }
    requires found { Found ready.way ready.generators ready.sites ready.order own_targets.now own_orders.now shapes.now.strides shapes.now.rests masks.now site.now place.now × (room_of ready.way ≤ plane_words) }
    requires order_value { ready.order ≡ order_of (generators_in ready.generators ready.sites own_targets.now own_orders.now) }
    requires numbering { Numbering group.now.sites ready.sites (site_of table.now) × (ready.sites ≤ length table.now) }
    requires representatives_len { length representatives.old ≡ word_length * length indices.old }
    requires by_index { (i : ℕ) → i < length indices.old → AcceptedWord group.now.sites (row_at representatives.old i) × (get_or indices.old i 0 < order_of (generators_held group.now)) }
    ensures none { ready.generators ≡ 0 → (representatives.new ≡ representatives.old) × (indices.new ≡ indices.old) }
    ensures some { 0 < ready.generators → (i : ℕ) → i < length indices.old
        → Stepped group.now.sites ready.sites (site_of table.now) (generators_in ready.generators ready.sites own_targets.now own_orders.now) (generators_held group.now) labels.now part
        (row_at representatives.old i) (get_or indices.old i 0) (row_at representatives.new i) (get_or indices.new i 0) }
{
    if ready.generators == 0 {
        return;
    }
    let own_group = Lent {
        sites: ready.sites,
        generators: ready.generators,
        orders: own_orders,
        targets: own_targets,
    };
    let order = ready.order;
    let way = ready.way;
    let room = way.room();
    let mut left = [0u64; PLANE_WORDS];
    part_rows(
        group,
        labels,
        part,
        way,
        &own_group,
        shapes,
        masks,
        site,
        place,
        order,
        table,
        &mut left[0..room],
        representatives,
        indices,
    );
}

// One part's work on every row, with room for what is made ready for it.
pub fn part_in(
    group: &Lent<'_>,
    labels: &[u16],
    owners: &[u16],
    part: usize,
    table: &mut [u16],
    own_targets: &mut [u16; TARGET_PLACES],
    own_orders: &mut [u32; MAX_GENERATORS],
    shapes: &mut Shapes,
    masks: &mut [u64],
    site: &mut [u16],
    place: &mut [u16],
    representatives: &mut [u8],
    indices: &mut [usize],
)
    requires tables { HoldsGroup group.now × (length labels.now ≡ group.now.generators) × (length owners.now ≡ max_sites) × (part < group.now.generators) }
    requires divided { Divided group.now.sites (generators_held group.now) labels.now owners.now }
    requires table_len { (length table.old ≡ max_sites) × (length own_targets.old ≡ target_places) × (length own_orders.old ≡ max_generators) }
    requires strides_len { (length shapes.old.strides ≡ max_generators) × (length shapes.old.rests ≡ max_generators) × (max_generators * plane_words ≤ length masks.old) }
    requires site_len { (length site.old ≡ max_sites) × (length place.old ≡ max_sites) }
    requires representatives_len { length representatives.old ≡ word_length * length indices.old }
    requires by_index { (i : ℕ) → i < length indices.old → AcceptedWord group.now.sites (row_at representatives.old i) × (get_or indices.old i 0 < order_of (generators_held group.now)) }
    ensures { (words : ℕ → Word)
        → AllStand group.now.sites (generators_held group.now) labels.now part words representatives.old indices.old
        → AllStand group.now.sites (generators_held group.now) labels.now (suc part) words representatives.new indices.new }
{
    let ready = prepared::prepare(
        group,
        labels,
        owners,
        part,
        table,
        own_targets,
        own_orders,
        shapes,
        masks,
        site,
        place,
    );
    part_by_way(
        group,
        labels,
        part,
        ready,
        table,
        own_targets,
        own_orders,
        shapes,
        masks,
        site,
        place,
        representatives,
        indices,
    );
}

// One part's work on every row.
pub fn part_of_all(
    group: &Lent<'_>,
    labels: &[u16],
    owners: &[u16],
    part: usize,
    representatives: &mut [u8],
    indices: &mut [usize],
)
    requires tables { HoldsGroup group.now × (length labels.now ≡ group.now.generators) × (length owners.now ≡ max_sites) × (part < group.now.generators) }
    requires divided { Divided group.now.sites (generators_held group.now) labels.now owners.now }
    requires representatives_len { length representatives.old ≡ word_length * length indices.old }
    requires by_index { (i : ℕ) → i < length indices.old → AcceptedWord group.now.sites (row_at representatives.old i) × (get_or indices.old i 0 < order_of (generators_held group.now)) }
    ensures { (words : ℕ → Word)
        → AllStand group.now.sites (generators_held group.now) labels.now part words representatives.old indices.old
        → AllStand group.now.sites (generators_held group.now) labels.now (suc part) words representatives.new indices.new }
{
    let mut table = [0u16; MAX_SITES];
    let mut own_targets = [0u16; TARGET_PLACES];
    let mut own_orders = [0u32; MAX_GENERATORS];
    let mut shapes = Shapes::new();
    let mut masks = [0u64; MASK_WORDS];
    let mut site = [0u16; MAX_SITES];
    let mut place = [0u16; MAX_SITES];
    part_in(
        group,
        labels,
        owners,
        part,
        &mut table,
        &mut own_targets,
        &mut own_orders,
        &mut shapes,
        &mut masks,
        &mut site,
        &mut place,
        representatives,
        indices,
    );
}

// Makes every row the least word of its orbit, and every index, which is 0, the one that leads back, part after part.
pub fn least_rows(
    group: &Lent<'_>,
    labels: &[u16],
    owners: &[u16],
    representatives: &mut [u8],
    indices: &mut [usize],
)
    requires tables { HoldsGroup group.now × (length labels.now ≡ group.now.generators) × (length owners.now ≡ max_sites) }
    requires divided { Divided group.now.sites (generators_held group.now) labels.now owners.now }
    requires by_index { (g : ℕ) → g < group.now.generators → get_or labels.now g 0 < group.now.generators }
    requires representatives_len { length representatives.old ≡ word_length * length indices.old }
    requires by_index_2 { (i : ℕ) → i < length indices.old → AcceptedWord group.now.sites (row_at representatives.old i) × (get_or indices.old i 0 ≡ 0) }
    ensures { (i : ℕ) → i < length indices.old
        → (row_at representatives.new i ≡ bytes_of (least (generators_held group.now) (letters_in group.now.sites (row_at representatives.old i))))
        × (get_or indices.new i 0 ≡ index_back (generators_held group.now) (letters_in group.now.sites (row_at representatives.old i))) }
{
    let Lent { generators, .. } = *group;
    for part in 0..generators {
        part_of_all(group, labels, owners, part, representatives, indices);
    }
}
