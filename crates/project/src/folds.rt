// Whole numbers added at their places. Whoever calls a function here owes its `requires`.
ghost use Rattle.std.specs.Prelude.{◌≡◌, ℕ, ◌*◌, ◌≤◌, ◌<◌, pos, length, get_or, take, replicate};
ghost use Rattle.pauli_word.specs.Limits.{word_length};
ghost use Rattle.keyed.specs.Keyed.{table_of, placed, place_values};
ghost use Rattle.row_lists.specs.Rows.{max_rows, rows_in};
ghost use Rattle.row_words.specs.Words.{words_filled, filled};
ghost use Rattle.phases.specs.Rules.{InRange};
ghost use Rattle.project.specs.Rows.{max_part, whole_sums, whole_rows};

use row_lists::MAX_ROWS;

// Zeros alone.
pub fn clear(list: &mut [i64])
    ensures { list.new ≡ replicate (length list.old) (pos 0) }
{
    list.fill(0);
}

// Adds the first `rows` parts in their order, each at its place, to zeros. A sum of as many parts as there may be stays inside 64 bits.
pub fn add_parts(parts: &[i64], rows: usize, places: &[u16], sums: &mut [i64])
    requires rows_le_max_rows { rows ≤ max_rows }
    requires parts_len { length parts.now ≡ max_rows }
    requires places_len { length places.now ≡ max_rows }
    requires sums_len_bound { length sums.old ≤ max_rows }
    requires sums_value { sums.old ≡ replicate (length sums.old) (pos 0) }
    requires by_index { (i : ℕ) → i < rows → get_or places.now i 0 < length sums.old }
    requires by_index_2 { (i : ℕ) → i < rows → InRange max_part (get_or parts.now i (pos 0)) }
    ensures { sums.new ≡ place_values whole_sums (length sums.old) (placed (pos 0) places.now parts.now rows) }
{
    for i in 0..rows {
        let at = places[i] as usize;
        sums[at] = sums[at] + parts[i];
    }
}

// Folds what the first `kept` rows add, by their words: each different word once, in rising order, with the sum of its rows' parts in either list,
// and zeros after the last.
pub fn fold_parts(
    kept: usize,
    xs: &[i64],
    ys: &[i64],
    representatives: &mut [u8],
    cosines: &mut [i64],
    sines: &mut [i64],
)
    requires kept_in_bounds { kept ≤ length cosines.old }
    requires cosines_len_bound { length cosines.old ≤ max_rows }
    requires sines_len { length sines.old ≡ length cosines.old }
    requires representatives_len { length representatives.old ≡ word_length * length cosines.old }
    requires xs_len { (length xs.now ≡ max_rows) × (length ys.now ≡ max_rows) }
    requires by_index { (i : ℕ) → i < kept → InRange max_part (get_or xs.now i (pos 0)) }
    requires by_index_2 { (i : ℕ) → i < kept → InRange max_part (get_or ys.now i (pos 0)) }
    ensures representatives { representatives.new ≡ words_filled (length cosines.old) (table_of whole_rows (rows_in representatives.old (take kept xs.now))) }
    ensures cosines { cosines.new ≡ filled (pos 0) (λ row. row.1) (length cosines.old) (table_of whole_rows (rows_in representatives.old (take kept xs.now))) }
    ensures sines { sines.new ≡ filled (pos 0) (λ row. row.1) (length cosines.old) (table_of whole_rows (rows_in representatives.old (take kept ys.now))) }
{
    let mut places = [0u16; MAX_ROWS];
    row_words::fold::fold_words(representatives, kept, &mut places);
    clear(cosines);
    clear(sines);
    add_parts(xs, kept, &places, cosines);
    add_parts(ys, kept, &places, sines);
}
