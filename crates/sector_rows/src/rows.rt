// The decisions for rows of words, row by row. Whoever calls a function here owes its `requires`.
ghost use Rattle.std.specs.Prelude.{◌≡◌, ◌+◌, ◌*◌, ◌≤◌, length};
ghost use Rattle.pauli_word.specs.Limits.{word_length};
ghost use Rattle.pauli_word.specs.Bytes.{EitherLength, AcceptedWord, letters_in, in_full};
ghost use Rattle.action.specs.Index.{order_of};
ghost use Rattle.action.specs.Sector.{modulus as modulusOf};
ghost use Rattle.elements.specs.HeldGroup.{HoldsGroup, generators_held};
ghost use Rattle.row_lists.specs.Rows.{row_by, in_full_by};
ghost use Rattle.row_lists.specs.Checks.{AcceptedRows};
ghost use Rattle.packed.specs.Packed.{plane_words};
ghost use Rattle.paths.specs.Paths.{words_of, Takes};
ghost use Rattle.decisions.specs.Decisions.{decision, row_word};
ghost use Rattle.decisions.specs.Placements.{placement_of};
ghost use Rattle.sector_rows.specs.Rows.{decided_rows, sector_words, sector_indices, sector_sizes};

use crate::by_parts;
use decisions::placement::Placement;
use decisions::stabilizer;
use packed::PLANE_WORDS;
use paths::plan::Path;
use pauli_word::WORD_BYTES;
use permutation::Lent;
use rotation::planes::MASK_WORDS;
use rotation::shape::Shapes;

// Writes the least word of the orbit of row i's word into `row`, or zeros where the modes drop the word; the decision by its numbers. A row in full is read
// where it stands.
pub fn place_row(
    path: Path,
    group: &Lent<'_>,
    shapes: &Shapes,
    masks: &[u64],
    order: usize,
    modulus: usize,
    modes: &[i32],
    words: &[u8],
    size: usize,
    i: usize,
    left: &mut [u64],
    row: &mut [u8],
) -> Placement
    requires tables { HoldsGroup group.now }
    requires taken { Takes path group.now order shapes.now masks.now }
    requires order_value { order ≡ order_of (generators_held group.now) }
    requires modulus_value { modulus ≡ modulusOf (generators_held group.now) }
    requires modes_len { length modes.now ≡ group.now.generators }
    requires either_length { EitherLength size × (size * i + size ≤ length words.now) }
    requires accepted_word { AcceptedWord group.now.sites (in_full (row_by size words.now i)) }
    requires left_len { (length left.old ≡ words_of path) × (length row.old ≡ word_length) }
    ensures answer { result ≡ placement_of (decision (generators_held group.now) modes.now (letters_in group.now.sites (in_full (row_by size words.now i)))) }
    ensures row { row.new ≡ row_word (decision (generators_held group.now) modes.now (letters_in group.now.sites (in_full (row_by size words.now i)))) }
{
    if size == WORD_BYTES {
        let at = WORD_BYTES * i;
        let end = at + WORD_BYTES;
        return stabilizer::placed_into(
            path,
            group,
            shapes,
            masks,
            order,
            modulus,
            modes,
            &words[at..end],
            left,
            row,
        );
    }
    let full = row_lists::checks::row_in_full(words, size, i);
    stabilizer::placed_into(
        path, group, shapes, masks, order, modulus, modes, &full, left, row,
    )
}

// Writes for each row its word into the row of the same number, and its index and its orbit size into their places, by the path that the group takes.
pub fn place_each(
    path: Path,
    group: &Lent<'_>,
    shapes: &Shapes,
    masks: &[u64],
    order: usize,
    modulus: usize,
    modes: &[i32],
    words: &[u8],
    size: usize,
    left: &mut [u64],
    representatives: &mut [u8],
    indices: &mut [usize],
    sizes: &mut [usize],
)
    requires tables { HoldsGroup group.now }
    requires taken { Takes path group.now order shapes.now masks.now }
    requires order_value { order ≡ order_of (generators_held group.now) }
    requires modulus_value { modulus ≡ modulusOf (generators_held group.now) }
    requires modes_len { length modes.now ≡ group.now.generators }
    requires left_len { length left.old ≡ words_of path }
    requires either_length { EitherLength size × (length words.now ≡ size * length indices.old) }
    requires accepted_rows { AcceptedRows group.now.sites (in_full_by size (length indices.old) words.now) (length indices.old) }
    requires representatives_len { length representatives.old ≡ word_length * length indices.old }
    requires sizes_len { length sizes.old ≡ length indices.old }
    ensures representatives { representatives.new ≡ sector_words (decided_rows (generators_held group.now) modes.now group.now.sites (in_full_by size (length indices.old) words.now) (length indices.old)) }
    ensures indices { indices.new ≡ sector_indices (decided_rows (generators_held group.now) modes.now group.now.sites (in_full_by size (length indices.old) words.now) (length indices.old)) }
    ensures sizes { sizes.new ≡ sector_sizes (decided_rows (generators_held group.now) modes.now group.now.sites (in_full_by size (length indices.old) words.now) (length indices.old)) }
{
    for i in 0..indices.len() {
        let at = WORD_BYTES * i;
        let end = at + WORD_BYTES;
        let row = &mut representatives[at..end];
        let placement = place_row(
            path, group, shapes, masks, order, modulus, modes, words, size, i, left, row,
        );
        let index = placement.index();
        let orbit = placement.size();
        indices[i] = index;
        sizes[i] = orbit;
    }
}

// The same, with room for the candidates.
fn rows_by_path(
    path: Path,
    group: &Lent<'_>,
    shapes: &Shapes,
    masks: &[u64],
    order: usize,
    modes: &[i32],
    words: &[u8],
    size: usize,
    representatives: &mut [u8],
    indices: &mut [usize],
    sizes: &mut [usize],
)
    requires tables { HoldsGroup group.now }
    requires taken { Takes path group.now order shapes.now masks.now × (words_of path ≤ plane_words) }
    requires order_value { order ≡ order_of (generators_held group.now) }
    requires modes_len { length modes.now ≡ group.now.generators }
    requires either_length { EitherLength size × (length words.now ≡ size * length indices.old) }
    requires accepted_rows { AcceptedRows group.now.sites (in_full_by size (length indices.old) words.now) (length indices.old) }
    requires representatives_len { length representatives.old ≡ word_length * length indices.old }
    requires sizes_len { length sizes.old ≡ length indices.old }
    ensures representatives { representatives.new ≡ sector_words (decided_rows (generators_held group.now) modes.now group.now.sites (in_full_by size (length indices.old) words.now) (length indices.old)) }
    ensures indices { indices.new ≡ sector_indices (decided_rows (generators_held group.now) modes.now group.now.sites (in_full_by size (length indices.old) words.now) (length indices.old)) }
    ensures sizes { sizes.new ≡ sector_sizes (decided_rows (generators_held group.now) modes.now group.now.sites (in_full_by size (length indices.old) words.now) (length indices.old)) }
{
    let modulus = elements::index::phase_modulus(group);
    let room = path.words();
    let mut left = [0u64; PLANE_WORDS];
    place_each(
        path,
        group,
        shapes,
        masks,
        order,
        modulus,
        modes,
        words,
        size,
        &mut left[0..room],
        representatives,
        indices,
        sizes,
    );
}

// The same for a path that is found: part by part where that is of use, and else by the path.
pub fn rows_on(
    path: Path,
    group: &Lent<'_>,
    shapes: &Shapes,
    masks: &[u64],
    order: usize,
    modes: &[i32],
    words: &[u8],
    size: usize,
    representatives: &mut [u8],
    indices: &mut [usize],
    sizes: &mut [usize],
)
    requires tables { HoldsGroup group.now }
    requires taken { Takes path group.now order shapes.now masks.now × (words_of path ≤ plane_words) }
    requires order_value { order ≡ order_of (generators_held group.now) }
    requires modes_len { length modes.now ≡ group.now.generators }
    requires either_length { EitherLength size × (length words.now ≡ size * length indices.old) }
    requires accepted_rows { AcceptedRows group.now.sites (in_full_by size (length indices.old) words.now) (length indices.old) }
    requires representatives_len { length representatives.old ≡ word_length * length indices.old }
    requires sizes_len { length sizes.old ≡ length indices.old }
    ensures representatives { representatives.new ≡ sector_words (decided_rows (generators_held group.now) modes.now group.now.sites (in_full_by size (length indices.old) words.now) (length indices.old)) }
    ensures indices { indices.new ≡ sector_indices (decided_rows (generators_held group.now) modes.now group.now.sites (in_full_by size (length indices.old) words.now) (length indices.old)) }
    ensures sizes { sizes.new ≡ sector_sizes (decided_rows (generators_held group.now) modes.now group.now.sites (in_full_by size (length indices.old) words.now) (length indices.old)) }
{
    if by_parts::rows_taken(
        path,
        order,
        group,
        modes,
        words,
        size,
        representatives,
        indices,
        sizes,
    ) {
        return;
    }
    rows_by_path(
        path,
        group,
        shapes,
        masks,
        order,
        modes,
        words,
        size,
        representatives,
        indices,
        sizes,
    );
}

// The same for a group: what is found of it is found once for all rows. The rows that are handed have `size` bytes each.
pub fn place_rows(
    group: &Lent<'_>,
    modes: &[i32],
    words: &[u8],
    size: usize,
    representatives: &mut [u8],
    indices: &mut [usize],
    sizes: &mut [usize],
)
    requires tables { HoldsGroup group.now }
    requires modes_len { length modes.now ≡ group.now.generators }
    requires either_length { EitherLength size × (length words.now ≡ size * length indices.old) }
    requires accepted_rows { AcceptedRows group.now.sites (in_full_by size (length indices.old) words.now) (length indices.old) }
    requires representatives_len { length representatives.old ≡ word_length * length indices.old }
    requires sizes_len { length sizes.old ≡ length indices.old }
    ensures representatives { representatives.new ≡ sector_words (decided_rows (generators_held group.now) modes.now group.now.sites (in_full_by size (length indices.old) words.now) (length indices.old)) }
    ensures indices { indices.new ≡ sector_indices (decided_rows (generators_held group.now) modes.now group.now.sites (in_full_by size (length indices.old) words.now) (length indices.old)) }
    ensures sizes { sizes.new ≡ sector_sizes (decided_rows (generators_held group.now) modes.now group.now.sites (in_full_by size (length indices.old) words.now) (length indices.old)) }
{
    let order = elements::index::order(group);
    let mut shapes = Shapes::new();
    let mut masks = [0u64; MASK_WORDS];
    let path = paths::plan::find_path(group, order, &mut shapes, &mut masks);
    rows_on(
        path,
        group,
        &shapes,
        &masks,
        order,
        modes,
        words,
        size,
        representatives,
        indices,
        sizes,
    );
}
