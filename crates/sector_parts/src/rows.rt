// The decisions for rows of words, part after part. Whoever calls a function here owes its `requires`.
ghost use Rattle.std.specs.Prelude.{◌≡◌, cond, ℕ, suc, ◌*◌, ◌≤◌, ◌<◌, eqb, length, get_or};
ghost use Rattle.pauli_word.specs.Limits.{max_sites, word_length};
ghost use Rattle.pauli_word.specs.Word.{Word};
ghost use Rattle.pauli_word.specs.Bytes.{AcceptedWord, letters_in};
ghost use Rattle.permutation.specs.Limits.{target_places, max_generators, max_order};
ghost use Rattle.action.specs.Index.{order_of};
ghost use Rattle.action.specs.Sector.{modulus as modulusOf};
ghost use Rattle.elements.specs.HeldGroup.{generators_in, Tables, HoldsGroup, generators_held};
ghost use Rattle.packed.specs.Packed.{plane_words};
ghost use Rattle.parts.specs.Labels.{Divided, chosen};
ghost use Rattle.parts.specs.Numbered.{Numbering};
ghost use Rattle.parted.specs.Steps.{site_of};
ghost use Rattle.row_lists.specs.Rows.{row_at, no_word};
ghost use Rattle.decisions.specs.Decisions.{decision};
ghost use Rattle.ways.specs.Ways.{Found, room_of, Finds};
ghost use Rattle.sector_parts.specs.Steps.{SectorStepped, AllPlaced, Decided};

use crate::{join, part};
use packed::PLANE_WORDS;
use parted::prepared;
use parted::prepared::Part;
use pauli_word::{MAX_SITES, WORD_BYTES};
use permutation::{Lent, MAX_GENERATORS, TARGET_PLACES};
use rotation::planes::MASK_WORDS;
use rotation::shape::Shapes;
use ways::way::Way;

// One part's work on every row.
pub fn place_part_rows(
    group: &Lent<'_>,
    labels: &[u16],
    part: usize,
    way: Way,
    own_group: &Lent<'_>,
    shapes: &Shapes,
    masks: &[u64],
    site: &[u16],
    place: &[u16],
    order: usize,
    modulus: usize,
    modes: &[i32],
    table: &[u16],
    left: &mut [u64],
    representatives: &mut [u8],
    indices: &mut [usize],
    sizes: &mut [usize],
)
    requires tables { HoldsGroup group.now × (length labels.now ≡ group.now.generators) }
    requires tables_2 { HoldsGroup own_group.now }
    requires found { Finds way own_group.now order shapes.now masks.now site.now place.now }
    requires order_value { order ≡ order_of (generators_held own_group.now) }
    requires modulus_value { (modulus ≡ modulusOf (generators_held own_group.now)) × (length modes.now ≡ own_group.now.generators) }
    requires numbering { Numbering group.now.sites own_group.now.sites (site_of table.now) × (own_group.now.sites ≤ length table.now) × (length left.old ≡ room_of way) }
    requires representatives_len { (length representatives.old ≡ word_length * length indices.old) × (length sizes.old ≡ length indices.old) }
    requires by_index { (i : ℕ) → i < length indices.old → AcceptedWord group.now.sites (row_at representatives.old i) × (get_or indices.old i 0 < order_of (generators_held group.now)) × (get_or sizes.old i 0 ≤ max_order) }
    ensures { (i : ℕ) → i < length indices.old
        → SectorStepped group.now.sites own_group.now.sites (site_of table.now) (generators_held own_group.now) (generators_held group.now) labels.now modes.now part
        (row_at representatives.old i) (get_or indices.old i 0) (get_or sizes.old i 0) (row_at representatives.new i) (get_or indices.new i 0) (get_or sizes.new i 0) }
{
    let Lent { sites, .. } = *group;
    for i in 0..indices.len() {
        let at = WORD_BYTES * i;
        let end = at + WORD_BYTES;
        let row = &mut representatives[at..end];
        let placed = part::place_part(
            way, own_group, shapes, masks, site, place, order, modulus, modes, table, sites, left,
            row,
        );
        let back = placed.index();
        let orbit = placed.size();
        let whole = split::index::spread(group, labels, part, back);
        let index = join::joined_index(indices[i], sizes[i], whole, orbit);
        let size = join::joined_size(sizes[i], orbit);
        indices[i] = index;
        sizes[i] = size;
    }
}

// One part's work on every row, by the way that the part takes; a part without generators leaves every row.
pub fn place_by_way(
    group: &Lent<'_>,
    labels: &[u16],
    modes: &[i32],
    part: usize,
    ready: Part,
    table: &[u16],
    own_targets: &[u16; TARGET_PLACES],
    own_orders: &[u32; MAX_GENERATORS],
    shapes: &Shapes,
    masks: &[u64],
    site: &[u16],
    place: &[u16],
    representatives: &mut [u8],
    indices: &mut [usize],
    sizes: &mut [usize],
)
    requires tables { HoldsGroup group.now × (length labels.now ≡ group.now.generators) × (length modes.now ≡ group.now.generators) }
    requires tables_2 { Tables ready.generators ready.sites own_targets.now own_orders.now × (length (chosen (λ l. eqb l part) labels.now modes.now) ≡ ready.generators) }
    requires found { Found ready.way ready.generators ready.sites ready.order own_targets.now own_orders.now shapes.now.strides shapes.now.rests masks.now site.now place.now × (room_of ready.way ≤ plane_words) }
    requires order_value { ready.order ≡ order_of (generators_in ready.generators ready.sites own_targets.now own_orders.now) }
    requires numbering { Numbering group.now.sites ready.sites (site_of table.now) × (ready.sites ≤ length table.now) }
    requires representatives_len { (length representatives.old ≡ word_length * length indices.old) × (length sizes.old ≡ length indices.old) }
    requires by_index { (i : ℕ) → i < length indices.old → AcceptedWord group.now.sites (row_at representatives.old i) × (get_or indices.old i 0 < order_of (generators_held group.now)) × (get_or sizes.old i 0 ≤ max_order) }
    ensures none { ready.generators ≡ 0 → (representatives.new ≡ representatives.old) × (indices.new ≡ indices.old) × (sizes.new ≡ sizes.old) }
    ensures some { 0 < ready.generators → (i : ℕ) → i < length indices.old
        → SectorStepped group.now.sites ready.sites (site_of table.now) (generators_in ready.generators ready.sites own_targets.now own_orders.now) (generators_held group.now) labels.now (chosen (λ l. eqb l part) labels.now modes.now) part
        (row_at representatives.old i) (get_or indices.old i 0) (get_or sizes.old i 0) (row_at representatives.new i) (get_or indices.new i 0) (get_or sizes.new i 0) }
{
    if ready.generators == 0 {
        return;
    }
    let own_group = Lent {
        sites: ready.sites,
        generators: ready.generators,
        orders: own_orders,
        targets: own_targets,
    };
    let order = ready.order;
    let way = ready.way;
    let room = way.room();
    let mut left = [0u64; PLANE_WORDS];
    let mut own_modes = [0i32; MAX_GENERATORS];
    let count = split::modes::take_modes(modes, labels, part, &mut own_modes);
    let modulus = elements::index::phase_modulus(&own_group);
    place_part_rows(
        group,
        labels,
        part,
        way,
        &own_group,
        shapes,
        masks,
        site,
        place,
        order,
        modulus,
        &own_modes[0..count],
        table,
        &mut left[0..room],
        representatives,
        indices,
        sizes,
    );
}

// One part's work on every row, with room for what is made ready for it.
pub fn place_part_in(
    group: &Lent<'_>,
    labels: &[u16],
    owners: &[u16],
    modes: &[i32],
    part: usize,
    table: &mut [u16],
    own_targets: &mut [u16; TARGET_PLACES],
    own_orders: &mut [u32; MAX_GENERATORS],
    shapes: &mut Shapes,
    masks: &mut [u64],
    site: &mut [u16],
    place: &mut [u16],
    representatives: &mut [u8],
    indices: &mut [usize],
    sizes: &mut [usize],
)
    requires tables { HoldsGroup group.now × (length labels.now ≡ group.now.generators) × (length owners.now ≡ max_sites) × (part < group.now.generators) × (length modes.now ≡ group.now.generators) }
    requires divided { Divided group.now.sites (generators_held group.now) labels.now owners.now }
    requires table_len { (length table.old ≡ max_sites) × (length own_targets.old ≡ target_places) × (length own_orders.old ≡ max_generators) }
    requires strides_len { (length shapes.old.strides ≡ max_generators) × (length shapes.old.rests ≡ max_generators) × (max_generators * plane_words ≤ length masks.old) }
    requires site_len { (length site.old ≡ max_sites) × (length place.old ≡ max_sites) }
    requires representatives_len { (length representatives.old ≡ word_length * length indices.old) × (length sizes.old ≡ length indices.old) }
    requires by_index { (i : ℕ) → i < length indices.old → AcceptedWord group.now.sites (row_at representatives.old i) × (get_or indices.old i 0 < order_of (generators_held group.now)) × (get_or sizes.old i 0 ≤ max_order) }
    ensures { (words : ℕ → Word)
        → AllPlaced group.now.sites (generators_held group.now) labels.now modes.now part words representatives.old indices.old sizes.old
        → AllPlaced group.now.sites (generators_held group.now) labels.now modes.now (suc part) words representatives.new indices.new sizes.new }
{
    let ready = prepared::prepare(
        group,
        labels,
        owners,
        part,
        table,
        own_targets,
        own_orders,
        shapes,
        masks,
        site,
        place,
    );
    place_by_way(
        group,
        labels,
        modes,
        part,
        ready,
        table,
        own_targets,
        own_orders,
        shapes,
        masks,
        site,
        place,
        representatives,
        indices,
        sizes,
    );
}

// One part's work on every row.
pub fn place_part_of_all(
    group: &Lent<'_>,
    labels: &[u16],
    owners: &[u16],
    modes: &[i32],
    part: usize,
    representatives: &mut [u8],
    indices: &mut [usize],
    sizes: &mut [usize],
)
    requires tables { HoldsGroup group.now × (length labels.now ≡ group.now.generators) × (length owners.now ≡ max_sites) × (part < group.now.generators) × (length modes.now ≡ group.now.generators) }
    requires divided { Divided group.now.sites (generators_held group.now) labels.now owners.now }
    requires representatives_len { (length representatives.old ≡ word_length * length indices.old) × (length sizes.old ≡ length indices.old) }
    requires by_index { (i : ℕ) → i < length indices.old → AcceptedWord group.now.sites (row_at representatives.old i) × (get_or indices.old i 0 < order_of (generators_held group.now)) × (get_or sizes.old i 0 ≤ max_order) }
    ensures { (words : ℕ → Word)
        → AllPlaced group.now.sites (generators_held group.now) labels.now modes.now part words representatives.old indices.old sizes.old
        → AllPlaced group.now.sites (generators_held group.now) labels.now modes.now (suc part) words representatives.new indices.new sizes.new }
{
    let mut table = [0u16; MAX_SITES];
    let mut own_targets = [0u16; TARGET_PLACES];
    let mut own_orders = [0u32; MAX_GENERATORS];
    let mut shapes = Shapes::new();
    let mut masks = [0u64; MASK_WORDS];
    let mut site = [0u16; MAX_SITES];
    let mut place = [0u16; MAX_SITES];
    place_part_in(
        group,
        labels,
        owners,
        modes,
        part,
        &mut table,
        &mut own_targets,
        &mut own_orders,
        &mut shapes,
        &mut masks,
        &mut site,
        &mut place,
        representatives,
        indices,
        sizes,
    );
}

// Zeros over a row whose size is 0.
pub fn clear_row(size: usize, row: &mut [u8])
    requires { length row.old ≡ word_length }
    ensures { row.new ≡ cond (eqb size 0) no_word row.old }
{
    if size != 0 {
        return;
    }
    row_lists::zeros::bytes_from(row, 0);
}

// Zeros over the rows of dropped words.
pub fn clear_dropped(representatives: &mut [u8], sizes: &[usize])
    requires { length representatives.old ≡ word_length * length sizes.now }
    ensures { (i : ℕ) → i < length sizes.now → row_at representatives.new i ≡ cond (eqb (get_or sizes.now i 0) 0) no_word (row_at representatives.old i) }
{
    for i in 0..sizes.len() {
        let at = WORD_BYTES * i;
        let end = at + WORD_BYTES;
        clear_row(sizes[i], &mut representatives[at..end]);
    }
}

// The decision for every row, part after part: the row becomes the least word of its orbit, or zeros where the modes drop the word; the index, which is 0,
// the one that leads back or drops it; and the size, which is 1, the orbit size, or 0.
pub fn place_rows(
    group: &Lent<'_>,
    labels: &[u16],
    owners: &[u16],
    modes: &[i32],
    representatives: &mut [u8],
    indices: &mut [usize],
    sizes: &mut [usize],
)
    requires tables { HoldsGroup group.now × (length labels.now ≡ group.now.generators) × (length owners.now ≡ max_sites) × (length modes.now ≡ group.now.generators) }
    requires divided { Divided group.now.sites (generators_held group.now) labels.now owners.now }
    requires by_index { (g : ℕ) → g < group.now.generators → get_or labels.now g 0 < group.now.generators }
    requires representatives_len { (length representatives.old ≡ word_length * length indices.old) × (length sizes.old ≡ length indices.old) }
    requires by_index_2 { (i : ℕ) → i < length indices.old → AcceptedWord group.now.sites (row_at representatives.old i) × (get_or indices.old i 0 ≡ 0) × (get_or sizes.old i 0 ≡ 1) }
    ensures { (i : ℕ) → i < length indices.old
        → Decided (decision (generators_held group.now) modes.now (letters_in group.now.sites (row_at representatives.old i)))
        (row_at representatives.new i) (get_or indices.new i 0) (get_or sizes.new i 0) }
{
    let Lent { generators, .. } = *group;
    for part in 0..generators {
        place_part_of_all(
            group,
            labels,
            owners,
            modes,
            part,
            representatives,
            indices,
            sizes,
        );
    }
    clear_dropped(representatives, sizes);
}
