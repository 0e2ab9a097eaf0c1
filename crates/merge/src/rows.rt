// The representatives of the rows of a sum. Whoever calls a function here owes its `requires`.
ghost use Rattle.std.specs.Prelude.{◌≡◌, ◌*◌, length};
ghost use Rattle.pauli_word.specs.Limits.{word_length};
ghost use Rattle.pauli_word.specs.Bytes.{EitherLength};
ghost use Rattle.elements.specs.HeldGroup.{encode_all, HoldsGroup, generators_held};
ghost use Rattle.row_lists.specs.Rows.{in_full_by};
ghost use Rattle.row_lists.specs.Checks.{AcceptedRows};
ghost use Rattle.merge.specs.Calls.{least_rows};

use permutation::Lent;
use row_lists::MAX_ROWS;

// Up to so many rows a call clears room for their indices alone, and not for those of MAX_ROWS.
const FEW_ROWS: usize = 256;

// Writes the least word of each row's orbit into the row of the same number; the input's rows have `size` bytes each. Their indices are not kept.
pub fn representatives(group: &Lent<'_>, words: &[u8], size: usize, rows: usize, out: &mut [u8])
    requires tables { HoldsGroup group.now }
    requires either_length { EitherLength size × (length words.now ≡ size * rows) }
    requires accepted_rows { AcceptedRows group.now.sites (in_full_by size rows words.now) rows }
    requires out_len { length out.old ≡ word_length * rows }
    ensures { out.new ≡ encode_all (least_rows (generators_held group.now) group.now.sites (in_full_by size rows words.now) rows) }
{
    if rows <= FEW_ROWS {
        let mut few = [0usize; FEW_ROWS];
        least_words::rows::least_rows(group, words, size, out, &mut few[0..rows]);
        return;
    }
    let mut indices = [0usize; MAX_ROWS];
    least_words::rows::least_rows(group, words, size, out, &mut indices[0..rows]);
}
