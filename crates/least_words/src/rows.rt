// Rows of words: their least words, row by row. Whoever calls a function here owes its `requires`.
ghost use Rattle.std.specs.Prelude.{◌≡◌, ◌+◌, ◌*◌, ◌≤◌, length};
ghost use Rattle.pauli_word.specs.Limits.{word_length};
ghost use Rattle.pauli_word.specs.Bytes.{EitherLength, AcceptedWord, in_full, letters_in, bytes_of};
ghost use Rattle.action.specs.Index.{order_of};
ghost use Rattle.action.specs.Orbit.{least, index_back};
ghost use Rattle.elements.specs.HeldGroup.{HoldsGroup, generators_held};
ghost use Rattle.packed.specs.Packed.{plane_words};
ghost use Rattle.row_lists.specs.Rows.{row_by, in_full_by};
ghost use Rattle.row_lists.specs.Checks.{AcceptedRows};
ghost use Rattle.paths.specs.Paths.{words_of, Takes};
ghost use Rattle.least_words.specs.Rows.{answered_rows, words_of as words_in, indices_of};

use crate::by_parts;
use packed::PLANE_WORDS;
use paths::plan::Path;
use pauli_word::WORD_BYTES;
use permutation::{Lent, MAX_GENERATORS};
use rotation::planes::MASK_WORDS;
use rotation::shape::Shapes;

// Writes the least word of row i's orbit into `row`, by the path of the group; the index that leads from it back. The rows that are handed have `size`
// bytes each, and one in full is read where it stands.
pub fn least_row(
    path: Path,
    group: &Lent<'_>,
    shapes: &Shapes,
    masks: &[u64],
    order: usize,
    words: &[u8],
    size: usize,
    i: usize,
    left: &mut [u64],
    row: &mut [u8],
) -> usize
    requires tables { HoldsGroup group.now }
    requires taken { Takes path group.now order shapes.now masks.now }
    requires order_value { order ≡ order_of (generators_held group.now) }
    requires either_length { EitherLength size × (size * i + size ≤ length words.now) }
    requires accepted_word { AcceptedWord group.now.sites (in_full (row_by size words.now i)) }
    requires left_len { (length left.old ≡ words_of path) × (length row.old ≡ word_length) }
    ensures index { result ≡ index_back (generators_held group.now) (letters_in group.now.sites (in_full (row_by size words.now i))) }
    ensures row { row.new ≡ bytes_of (least (generators_held group.now) (letters_in group.now.sites (in_full (row_by size words.now i)))) }
{
    if size == WORD_BYTES {
        let at = size * i;
        let end = at + size;
        let led = paths::least::least_into(
            path,
            group,
            shapes,
            masks,
            order,
            &words[at..end],
            left,
            row,
        );
        return led.index;
    }
    let full = row_lists::checks::row_in_full(words, size, i);
    let led = paths::least::least_into(path, group, shapes, masks, order, &full, left, row);
    led.index
}

// Writes for each row the least word of its orbit into the row of the same number, and the index that leads back into its place, by the path of the group.
pub fn least_rows_by(
    path: Path,
    group: &Lent<'_>,
    shapes: &Shapes,
    masks: &[u64],
    order: usize,
    words: &[u8],
    size: usize,
    left: &mut [u64],
    representatives: &mut [u8],
    indices: &mut [usize],
)
    requires tables { HoldsGroup group.now }
    requires taken { Takes path group.now order shapes.now masks.now }
    requires order_value { order ≡ order_of (generators_held group.now) }
    requires left_len { length left.old ≡ words_of path }
    requires either_length { EitherLength size × (length words.now ≡ size * length indices.old) }
    requires accepted_rows { AcceptedRows group.now.sites (in_full_by size (length indices.old) words.now) (length indices.old) }
    requires representatives_len { length representatives.old ≡ word_length * length indices.old }
    ensures representatives { representatives.new ≡ words_in (answered_rows (generators_held group.now) group.now.sites (in_full_by size (length indices.old) words.now) (length indices.old)) }
    ensures indices { indices.new ≡ indices_of (answered_rows (generators_held group.now) group.now.sites (in_full_by size (length indices.old) words.now) (length indices.old)) }
{
    for i in 0..indices.len() {
        let at = WORD_BYTES * i;
        let end = at + WORD_BYTES;
        let row = &mut representatives[at..end];
        let index = least_row(path, group, shapes, masks, order, words, size, i, left, row);
        indices[i] = index;
    }
}

// The same for a path that is found: part by part where that is of use, and else by the path.
pub fn rows_on(
    path: Path,
    group: &Lent<'_>,
    shapes: &Shapes,
    masks: &[u64],
    order: usize,
    words: &[u8],
    size: usize,
    representatives: &mut [u8],
    indices: &mut [usize],
)
    requires tables { HoldsGroup group.now }
    requires taken { Takes path group.now order shapes.now masks.now × (words_of path ≤ plane_words) }
    requires order_value { order ≡ order_of (generators_held group.now) }
    requires either_length { EitherLength size × (length words.now ≡ size * length indices.old) }
    requires accepted_rows { AcceptedRows group.now.sites (in_full_by size (length indices.old) words.now) (length indices.old) }
    requires representatives_len { length representatives.old ≡ word_length * length indices.old }
    ensures representatives { representatives.new ≡ words_in (answered_rows (generators_held group.now) group.now.sites (in_full_by size (length indices.old) words.now) (length indices.old)) }
    ensures indices { indices.new ≡ indices_of (answered_rows (generators_held group.now) group.now.sites (in_full_by size (length indices.old) words.now) (length indices.old)) }
{
    if by_parts::rows_taken(path, order, group, words, size, representatives, indices) {
        return;
    }
    let room = path.words();
    let mut left = [0u64; PLANE_WORDS];
    least_rows_by(
        path,
        group,
        shapes,
        masks,
        order,
        words,
        size,
        &mut left[0..room],
        representatives,
        indices,
    );
}

// Writes for each row the least word of its orbit into the row of the same number, and the index that leads back into its place; the rows that are
// handed have `size` bytes each. The path of the group is found once.
pub fn least_rows(
    group: &Lent<'_>,
    words: &[u8],
    size: usize,
    representatives: &mut [u8],
    indices: &mut [usize],
)
    requires tables { HoldsGroup group.now }
    requires either_length { EitherLength size × (length words.now ≡ size * length indices.old) }
    requires accepted_rows { AcceptedRows group.now.sites (in_full_by size (length indices.old) words.now) (length indices.old) }
    requires representatives_len { length representatives.old ≡ word_length * length indices.old }
    ensures representatives { representatives.new ≡ words_in (answered_rows (generators_held group.now) group.now.sites (in_full_by size (length indices.old) words.now) (length indices.old)) }
    ensures indices { indices.new ≡ indices_of (answered_rows (generators_held group.now) group.now.sites (in_full_by size (length indices.old) words.now) (length indices.old)) }
{
    let order = elements::index::order(group);
    let mut shapes = Shapes::new();
    let mut masks = [0u64; MASK_WORDS];
    let path = paths::plan::find_path(group, order, &mut shapes, &mut masks);
    rows_on(
        path,
        group,
        &shapes,
        &masks,
        order,
        words,
        size,
        representatives,
        indices,
    );
}
