// Least words part by part (`parted`), for groups that are no grids as they stand. Which way a group takes changes no answer.
ghost use Rattle.std.specs.Prelude.{◌≡◌, true, ℕ, ◌*◌, ◌≤◌, ◌<◌, length, get_or};
ghost use Rattle.pauli_word.specs.Limits.{max_sites, word_length};
ghost use Rattle.pauli_word.specs.Bytes.{EitherLength, AcceptedWord, in_full, letters_in, bytes_of};
ghost use Rattle.action.specs.Orbit.{least, index_back};
ghost use Rattle.elements.specs.HeldGroup.{HoldsGroup, generators_held};
ghost use Rattle.row_lists.specs.Rows.{max_rows, row_by, row_at, in_full_by};
ghost use Rattle.row_lists.specs.Checks.{AcceptedRows};
ghost use Rattle.least_words.specs.Rows.{answered_rows, words_of, indices_of};

use paths::plan::Path;
use pauli_word::{MAX_SITES, WORD_BYTES};
use permutation::{Lent, MAX_GENERATORS};

// From so many letters on that a walk would move, a group is asked for its parts; a shorter walk is done sooner.
const PARTS_FROM: usize = 8192;

// Whether it is of use to ask a group for its parts, for so many rows. No promise: the answers are the same.
pub fn is_worth(path: Path, order: usize, sites: usize, rows: usize) -> bool {
    if let Path::Grid(_) = path {
        return false;
    }
    if sites == 0 {
        return false;
    }
    if rows == 0 {
        return false;
    }
    PARTS_FROM / sites / rows <= order
}

// Copies each row's word, in full, into the row of the same number, and makes every index 0.
pub fn take_in_full(words: &[u8], size: usize, representatives: &mut [u8], indices: &mut [usize])
    requires either_length { EitherLength size × (length words.now ≡ size * length indices.old) × (length indices.old ≤ max_rows) }
    requires representatives_len { length representatives.old ≡ word_length * length indices.old }
    ensures { (i : ℕ) → i < length indices.old
        → (row_at representatives.new i ≡ in_full (row_by size words.now i)) × (get_or indices.new i 0 ≡ 0) }
{
    for i in 0..indices.len() {
        let full = row_lists::checks::row_in_full(words, size, i);
        let at = WORD_BYTES * i;
        let end = at + WORD_BYTES;
        pauli_word::inner::copy(&full, &mut representatives[at..end]);
        indices[i] = 0;
    }
}

// The least words of rows and the indices that lead back, part by part, where the group has parts; `labels` and `owners` are room for them.
fn rows_in_parts(
    group: &Lent<'_>,
    words: &[u8],
    size: usize,
    labels: &mut [u16],
    owners: &mut [u16],
    representatives: &mut [u8],
    indices: &mut [usize],
) -> bool
    requires tables { HoldsGroup group.now }
    requires either_length { EitherLength size × (length words.now ≡ size * length indices.old) }
    requires accepted_rows { AcceptedRows group.now.sites (in_full_by size (length indices.old) words.now) (length indices.old) }
    requires representatives_len { length representatives.old ≡ word_length * length indices.old }
    requires labels_len { (length labels.old ≡ group.now.generators) × (length owners.old ≡ max_sites) }
    ensures representatives { result ≡ true → representatives.new ≡ words_of (answered_rows (generators_held group.now) group.now.sites (in_full_by size (length indices.old) words.now) (length indices.old)) }
    ensures indices { result ≡ true → indices.new ≡ indices_of (answered_rows (generators_held group.now) group.now.sites (in_full_by size (length indices.old) words.now) (length indices.old)) }
{
    if !parted::divided::find_parts(group, labels, owners) {
        return false;
    }
    take_in_full(words, size, representatives, indices);
    parted::rows::least_rows(group, labels, owners, representatives, indices);
    true
}

// The least words of rows and the indices that lead back, part by part; whether the group has parts, and else the lists hold nothing of use.
pub fn rows_by_parts(
    group: &Lent<'_>,
    words: &[u8],
    size: usize,
    representatives: &mut [u8],
    indices: &mut [usize],
) -> bool
    requires tables { HoldsGroup group.now }
    requires either_length { EitherLength size × (length words.now ≡ size * length indices.old) }
    requires accepted_rows { AcceptedRows group.now.sites (in_full_by size (length indices.old) words.now) (length indices.old) }
    requires representatives_len { length representatives.old ≡ word_length * length indices.old }
    ensures representatives { result ≡ true → representatives.new ≡ words_of (answered_rows (generators_held group.now) group.now.sites (in_full_by size (length indices.old) words.now) (length indices.old)) }
    ensures indices { result ≡ true → indices.new ≡ indices_of (answered_rows (generators_held group.now) group.now.sites (in_full_by size (length indices.old) words.now) (length indices.old)) }
{
    let Lent { generators, .. } = *group;
    let mut labels = [0u16; MAX_GENERATORS];
    let mut owners = [0u16; MAX_SITES];
    rows_in_parts(
        group,
        words,
        size,
        &mut labels[0..generators],
        &mut owners,
        representatives,
        indices,
    )
}

// The same where it is of use to ask for the parts.
pub fn rows_taken(
    path: Path,
    order: usize,
    group: &Lent<'_>,
    words: &[u8],
    size: usize,
    representatives: &mut [u8],
    indices: &mut [usize],
) -> bool
    requires tables { HoldsGroup group.now }
    requires either_length { EitherLength size × (length words.now ≡ size * length indices.old) }
    requires accepted_rows { AcceptedRows group.now.sites (in_full_by size (length indices.old) words.now) (length indices.old) }
    requires representatives_len { length representatives.old ≡ word_length * length indices.old }
    ensures representatives { result ≡ true → representatives.new ≡ words_of (answered_rows (generators_held group.now) group.now.sites (in_full_by size (length indices.old) words.now) (length indices.old)) }
    ensures indices { result ≡ true → indices.new ≡ indices_of (answered_rows (generators_held group.now) group.now.sites (in_full_by size (length indices.old) words.now) (length indices.old)) }
{
    let Lent { sites, .. } = *group;
    if !is_worth(path, order, sites, indices.len()) {
        return false;
    }
    rows_by_parts(group, words, size, representatives, indices)
}

// The least word of one word, in `out`, and the index that leads back, in `back`, part by part; whether the group has parts.
pub fn word_by_parts(group: &Lent<'_>, word: &[u8], out: &mut [u8], back: &mut [usize]) -> bool
    requires tables { HoldsGroup group.now }
    requires accepted_word { AcceptedWord group.now.sites word.now }
    requires out_len { (length out.old ≡ word_length) × (length back.old ≡ 1) }
    ensures word { result ≡ true → out.new ≡ bytes_of (least (generators_held group.now) (letters_in group.now.sites word.now)) }
    ensures index { result ≡ true → get_or back.new 0 0 ≡ index_back (generators_held group.now) (letters_in group.now.sites word.now) }
{
    rows_by_parts(group, word, WORD_BYTES, out, back)
}

// The same where it is of use to ask for the parts.
pub fn word_taken(
    path: Path,
    order: usize,
    group: &Lent<'_>,
    word: &[u8],
    out: &mut [u8],
    back: &mut [usize],
) -> bool
    requires tables { HoldsGroup group.now }
    requires accepted_word { AcceptedWord group.now.sites word.now }
    requires out_len { (length out.old ≡ word_length) × (length back.old ≡ 1) }
    ensures word { result ≡ true → out.new ≡ bytes_of (least (generators_held group.now) (letters_in group.now.sites word.now)) }
    ensures index { result ≡ true → get_or back.new 0 0 ≡ index_back (generators_held group.now) (letters_in group.now.sites word.now) }
{
    let Lent { sites, .. } = *group;
    if !is_worth(path, order, sites, 1) {
        return false;
    }
    word_by_parts(group, word, out, back)
}
