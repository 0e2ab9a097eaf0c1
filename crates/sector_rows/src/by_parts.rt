// Decisions part by part (`sector_parts`), for groups that are no grids as they stand. Which way a group takes changes no answer.
ghost use Rattle.std.specs.Prelude.{◌≡◌, true, ℕ, ◌*◌, ◌<◌, length, get_or};
ghost use Rattle.pauli_word.specs.Limits.{max_sites, word_length};
ghost use Rattle.pauli_word.specs.Bytes.{EitherLength, AcceptedWord, letters_in};
ghost use Rattle.elements.specs.HeldGroup.{HoldsGroup, generators_held};
ghost use Rattle.row_lists.specs.Rows.{in_full_by};
ghost use Rattle.row_lists.specs.Checks.{AcceptedRows};
ghost use Rattle.decisions.specs.Decisions.{decision, row_word, row_index, row_orbit};
ghost use Rattle.sector_rows.specs.Rows.{decided_rows, sector_words, sector_indices, sector_sizes};

use least_words::by_parts;
use paths::plan::Path;
use pauli_word::{MAX_SITES, WORD_BYTES};
use permutation::{Lent, MAX_GENERATORS};

// Makes every size 1, the orbit size where no part is looked at.
fn take_ones(sizes: &mut [usize])
    ensures { (i : ℕ) → i < length sizes.old → get_or sizes.new i 0 ≡ 1 }
{
    sizes.fill(1);
}

// The decisions for rows, part by part, where the group has parts; `labels` and `owners` are room for them.
fn rows_in_parts(
    group: &Lent<'_>,
    modes: &[i32],
    words: &[u8],
    size: usize,
    labels: &mut [u16],
    owners: &mut [u16],
    representatives: &mut [u8],
    indices: &mut [usize],
    sizes: &mut [usize],
) -> bool
    requires tables { HoldsGroup group.now }
    requires modes_len { length modes.now ≡ group.now.generators }
    requires either_length { EitherLength size × (length words.now ≡ size * length indices.old) }
    requires accepted_rows { AcceptedRows group.now.sites (in_full_by size (length indices.old) words.now) (length indices.old) }
    requires representatives_len { length representatives.old ≡ word_length * length indices.old }
    requires sizes_len { length sizes.old ≡ length indices.old }
    requires labels_len { (length labels.old ≡ group.now.generators) × (length owners.old ≡ max_sites) }
    ensures representatives { result ≡ true → representatives.new ≡ sector_words (decided_rows (generators_held group.now) modes.now group.now.sites (in_full_by size (length indices.old) words.now) (length indices.old)) }
    ensures indices { result ≡ true → indices.new ≡ sector_indices (decided_rows (generators_held group.now) modes.now group.now.sites (in_full_by size (length indices.old) words.now) (length indices.old)) }
    ensures sizes { result ≡ true → sizes.new ≡ sector_sizes (decided_rows (generators_held group.now) modes.now group.now.sites (in_full_by size (length indices.old) words.now) (length indices.old)) }
{
    if !parted::divided::find_parts(group, labels, owners) {
        return false;
    }
    by_parts::take_in_full(words, size, representatives, indices);
    take_ones(sizes);
    sector_parts::rows::place_rows(
        group,
        labels,
        owners,
        modes,
        representatives,
        indices,
        sizes,
    );
    true
}

// The decisions for rows, part by part; whether the group has parts, and else the lists hold nothing of use.
fn rows_by_parts(
    group: &Lent<'_>,
    modes: &[i32],
    words: &[u8],
    size: usize,
    representatives: &mut [u8],
    indices: &mut [usize],
    sizes: &mut [usize],
) -> bool
    requires tables { HoldsGroup group.now }
    requires modes_len { length modes.now ≡ group.now.generators }
    requires either_length { EitherLength size × (length words.now ≡ size * length indices.old) }
    requires accepted_rows { AcceptedRows group.now.sites (in_full_by size (length indices.old) words.now) (length indices.old) }
    requires representatives_len { length representatives.old ≡ word_length * length indices.old }
    requires sizes_len { length sizes.old ≡ length indices.old }
    ensures representatives { result ≡ true → representatives.new ≡ sector_words (decided_rows (generators_held group.now) modes.now group.now.sites (in_full_by size (length indices.old) words.now) (length indices.old)) }
    ensures indices { result ≡ true → indices.new ≡ sector_indices (decided_rows (generators_held group.now) modes.now group.now.sites (in_full_by size (length indices.old) words.now) (length indices.old)) }
    ensures sizes { result ≡ true → sizes.new ≡ sector_sizes (decided_rows (generators_held group.now) modes.now group.now.sites (in_full_by size (length indices.old) words.now) (length indices.old)) }
{
    let Lent { generators, .. } = *group;
    let mut labels = [0u16; MAX_GENERATORS];
    let mut owners = [0u16; MAX_SITES];
    rows_in_parts(
        group,
        modes,
        words,
        size,
        &mut labels[0..generators],
        &mut owners,
        representatives,
        indices,
        sizes,
    )
}

// The same where it is of use to ask for the parts.
pub fn rows_taken(
    path: Path,
    order: usize,
    group: &Lent<'_>,
    modes: &[i32],
    words: &[u8],
    size: usize,
    representatives: &mut [u8],
    indices: &mut [usize],
    sizes: &mut [usize],
) -> bool
    requires tables { HoldsGroup group.now }
    requires modes_len { length modes.now ≡ group.now.generators }
    requires either_length { EitherLength size × (length words.now ≡ size * length indices.old) }
    requires accepted_rows { AcceptedRows group.now.sites (in_full_by size (length indices.old) words.now) (length indices.old) }
    requires representatives_len { length representatives.old ≡ word_length * length indices.old }
    requires sizes_len { length sizes.old ≡ length indices.old }
    ensures representatives { result ≡ true → representatives.new ≡ sector_words (decided_rows (generators_held group.now) modes.now group.now.sites (in_full_by size (length indices.old) words.now) (length indices.old)) }
    ensures indices { result ≡ true → indices.new ≡ sector_indices (decided_rows (generators_held group.now) modes.now group.now.sites (in_full_by size (length indices.old) words.now) (length indices.old)) }
    ensures sizes { result ≡ true → sizes.new ≡ sector_sizes (decided_rows (generators_held group.now) modes.now group.now.sites (in_full_by size (length indices.old) words.now) (length indices.old)) }
{
    let Lent { sites, .. } = *group;
    if !by_parts::is_worth(path, order, sites, indices.len()) {
        return false;
    }
    rows_by_parts(group, modes, words, size, representatives, indices, sizes)
}

// The decision for one word, its least word in `out`, its index in `back` and its orbit size in `orbit`, where it is of use to ask for the parts.
pub fn word_taken(
    path: Path,
    order: usize,
    group: &Lent<'_>,
    modes: &[i32],
    word: &[u8],
    out: &mut [u8],
    back: &mut [usize],
    orbit: &mut [usize],
) -> bool
    requires tables { HoldsGroup group.now }
    requires modes_len { length modes.now ≡ group.now.generators }
    requires accepted_word { AcceptedWord group.now.sites word.now }
    requires out_len { (length out.old ≡ word_length) × (length back.old ≡ 1) × (length orbit.old ≡ 1) }
    ensures word { result ≡ true → out.new ≡ row_word (decision (generators_held group.now) modes.now (letters_in group.now.sites word.now)) }
    ensures index { result ≡ true → get_or back.new 0 0 ≡ row_index (decision (generators_held group.now) modes.now (letters_in group.now.sites word.now)) }
    ensures size { result ≡ true → get_or orbit.new 0 0 ≡ row_orbit (decision (generators_held group.now) modes.now (letters_in group.now.sites word.now)) }
{
    let Lent { sites, .. } = *group;
    if !by_parts::is_worth(path, order, sites, 1) {
        return false;
    }
    rows_by_parts(group, modes, word, WORD_BYTES, out, back, orbit)
}
