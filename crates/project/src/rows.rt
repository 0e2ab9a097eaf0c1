// The rows of a sum turned by their phases, and added. Whoever calls a function here owes its `requires`.
ghost use Rattle.std.specs.Prelude.{◌≡◌, cond, map, ◌+◌, ◌*◌, ◌≤◌, ◌<◌, pos, length, set};
ghost use Rattle.pauli_word.specs.Limits.{word_length};
ghost use Rattle.pauli_word.specs.Bytes.{AcceptedWord, EitherLength, letters_in, bytes_of};
ghost use Rattle.action.specs.Sector.{keeps};
ghost use Rattle.elements.specs.HeldGroup.{generators_held};
ghost use Rattle.keyed.specs.Keyed.{renamed};
ghost use Rattle.row_lists.specs.Rows.{max_rows, with_row, in_full_by};
ghost use Rattle.row_words.specs.Words.{words_filled, filled};
ghost use Rattle.phases.specs.Rules.{InRange};
ghost use Rattle.projection.specs.Projection.{kept_rows, projected};
ghost use Rattle.project.specs.Calls.{max_coefficient, input_rows};
ghost use Rattle.project.specs.Rows.{PhaseLists, Sector, WholeRows, turned_as, turned_rows, TurnedRows};

use crate::folds;
use decisions::placement::Placement;
use pauli_word::WORD_BYTES;
use permutation::Lent;
use phases::{PHASES, PhaseTable};
use row_lists::MAX_ROWS;

// A row turned: whether its orbit is kept, and then its representative and what it adds along the cosine and the sine.
#[derive(Clone, Copy)]
pub struct Turned {
    pub kept: bool,
    pub word: [u8; WORD_BYTES],
    pub cosine: i64,
    pub sine: i64,
}

// Turns a row of an accepted word.
pub fn turn_row(
    group: &Lent<'_>,
    modes: &[i32],
    word: &[u8],
    coefficient: i64,
    cosines: &[i64],
    sines: &[i64],
) -> Turned
    requires sector { Sector group.now.generators group.now.sites group.now.targets.now group.now.orders.now modes.now }
    requires accepted_word { AcceptedWord group.now.sites word.now }
    requires in_range { InRange max_coefficient coefficient }
    requires phase_lists { PhaseLists cosines.now sines.now }
    ensures kept { result.kept ≡ keeps (generators_held group.now) modes.now (letters_in group.now.sites word.now) }
    ensures row { turned_as result cosines.now sines.now (generators_held group.now) modes.now (letters_in group.now.sites word.now, coefficient) }
{
    let placed = sector_rows::word::placement_of(group, word, modes);
    let least = placed.word;
    let answer = placed.answer;
    let Placement::Kept(index, _) = answer else {
        return Turned {
            kept: false,
            word: least,
            cosine: 0,
            sine: 0,
        };
    };
    let modulus = elements::index::phase_modulus(group);
    let numerator = decisions::phase::numerator_at(group, modulus, modes, index);
    let entry = numerator * PHASES / modulus;
    Turned {
        kept: true,
        word: least,
        cosine: coefficient * cosines[entry],
        sine: coefficient * sines[entry],
    }
}

// Keeps a turned row, if its orbit is kept: in row `kept` of the representatives, and in place `kept` of what rows add. How many rows are kept then.
pub fn keep_row(
    row: Turned,
    kept: usize,
    representatives: &mut [u8],
    xs: &mut [i64],
    ys: &mut [i64],
) -> usize
    requires word_length_in_bounds { word_length * kept + word_length ≤ length representatives.old }
    requires xs_len { (length xs.old ≡ max_rows) × (length ys.old ≡ max_rows) }
    requires kept_lt_max_rows { kept < max_rows }
    ensures kept { result ≡ cond row.kept (kept + 1) kept }
    ensures representatives { representatives.new ≡ cond row.kept (with_row representatives.old kept row.word) representatives.old }
    ensures xs { xs.new ≡ cond row.kept (set xs.old kept row.cosine) xs.old }
    ensures ys { ys.new ≡ cond row.kept (set ys.old kept row.sine) ys.old }
{
    if !row.kept {
        return kept;
    }
    let word = row.word;
    row_lists::exchange::put_row(representatives, kept, &word);
    let cosine = row.cosine;
    xs[kept] = cosine;
    let sine = row.sine;
    ys[kept] = sine;
    kept + 1
}

// Turns the rows in their order. The representative of the next row of a kept orbit goes into the next row of the list, and what it adds into the
// next places of the two others. How many rows are kept.
pub fn turn_rows(
    group: &Lent<'_>,
    modes: &[i32],
    words: &[u8],
    size: usize,
    coefficients: &[i64],
    cosines: &[i64],
    sines: &[i64],
    representatives: &mut [u8],
    xs: &mut [i64],
    ys: &mut [i64],
) -> usize
    requires sector { Sector group.now.generators group.now.sites group.now.targets.now group.now.orders.now modes.now }
    requires either_length { EitherLength size × (length words.now ≡ size * length coefficients.now) }
    requires whole_rows { WholeRows group.now.sites (in_full_by size (length coefficients.now) words.now) coefficients.now }
    requires phase_lists { PhaseLists cosines.now sines.now }
    requires representatives_len { length representatives.old ≡ word_length * length coefficients.now }
    requires xs_len { (length xs.old ≡ max_rows) × (length ys.old ≡ max_rows) }
    ensures kept { result ≡ length (turned_rows cosines.now sines.now (generators_held group.now) modes.now (input_rows group.now.sites (in_full_by size (length coefficients.now) words.now) coefficients.now)) }
    ensures held { TurnedRows (turned_rows cosines.now sines.now (generators_held group.now) modes.now (input_rows group.now.sites (in_full_by size (length coefficients.now) words.now) coefficients.now)) representatives.new xs.new ys.new }
{
    let mut kept = 0;
    for i in 0..coefficients.len() {
        let full = row_lists::checks::row_in_full(words, size, i);
        let row = turn_row(group, modes, &full, coefficients[i], cosines, sines);
        kept = keep_row(row, kept, representatives, xs, ys);
    }
    kept
}

// Projects the rows by a table, into output lists of as many rows. How many rows are kept.
pub fn project(
    table: PhaseTable,
    group: &Lent<'_>,
    modes: &[i32],
    words: &[u8],
    size: usize,
    coefficients: &[i64],
    representatives: &mut [u8],
    cosines: &mut [i64],
    sines: &mut [i64],
) -> usize
    requires sector { Sector group.now.generators group.now.sites group.now.targets.now group.now.orders.now modes.now }
    requires either_length { EitherLength size × (length words.now ≡ size * length coefficients.now) }
    requires whole_rows { WholeRows group.now.sites (in_full_by size (length coefficients.now) words.now) coefficients.now }
    requires phase_lists { PhaseLists table.cosines table.sines }
    requires representatives_len { length representatives.old ≡ word_length * length coefficients.now }
    requires cosines_len { (length cosines.old ≡ length coefficients.now) × (length sines.old ≡ length coefficients.now) }
    ensures kept { result ≡ length (kept_rows (generators_held group.now) modes.now (input_rows group.now.sites (in_full_by size (length coefficients.now) words.now) coefficients.now)) }
    ensures representatives { representatives.new ≡ words_filled (length coefficients.now) (map (renamed bytes_of) (projected table.cosines table.sines (generators_held group.now) modes.now (input_rows group.now.sites (in_full_by size (length coefficients.now) words.now) coefficients.now))) }
    ensures cosines { cosines.new ≡ filled (pos 0) (λ row. row.1.0) (length coefficients.now) (projected table.cosines table.sines (generators_held group.now) modes.now (input_rows group.now.sites (in_full_by size (length coefficients.now) words.now) coefficients.now)) }
    ensures sines { sines.new ≡ filled (pos 0) (λ row. row.1.1) (length coefficients.now) (projected table.cosines table.sines (generators_held group.now) modes.now (input_rows group.now.sites (in_full_by size (length coefficients.now) words.now) coefficients.now)) }
{
    let table_cosines = table.cosines;
    let table_sines = table.sines;
    let mut xs = [0i64; MAX_ROWS];
    let mut ys = [0i64; MAX_ROWS];
    let kept = turn_rows(
        group,
        modes,
        words,
        size,
        coefficients,
        &table_cosines,
        &table_sines,
        representatives,
        &mut xs,
        &mut ys,
    );
    folds::fold_parts(kept, &xs, &ys, representatives, cosines, sines);
    kept
}
