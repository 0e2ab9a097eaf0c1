// Coefficients added where their words stand. Whoever calls a function here owes its `requires`.
ghost use Rattle.std.specs.Prelude.{◌≡◌, [], ◌∷◌, ℕ, ◌≤◌, ◌<◌, length, get_or, set, replicate};
ghost use Rattle.std.specs.Float.{nan};
ghost use Rattle.outcome.specs.Outcome.{outcome_of, verdict};
ghost use Rattle.keyed.specs.Keyed.{placed};
ghost use Rattle.row_lists.specs.Rows.{max_rows};
ghost use Rattle.sum_rows.specs.Sums.{zero, add_row, finite_sum, overflow, place_sums};
ghost use Rattle.sum_rows.specs.Added.{held_at, AddedAll};

use crate::row_sum;
use crate::row_sum::RowSum;
use outcome::Refusal;

// Zeros alone.
pub fn clear(sums: &mut [f64], counts: &mut [u32])
    requires { length counts.old ≡ length sums.old }
    ensures sums { sums.new ≡ replicate (length sums.old) zero }
    ensures counts { counts.new ≡ replicate (length sums.old) 0 }
{
    sums.fill(0.0);
    counts.fill(0);
}

// Adds a coefficient to the sum at a place: whether that is finite then.
pub fn add_row(coefficient: f64, at: usize, sums: &mut [f64], counts: &mut [u32]) -> bool
    requires at_in_bounds { at < length sums.old }
    requires counts_len { length counts.old ≡ length sums.old }
    requires sums_len_bound { length sums.old ≤ max_rows }
    requires at_bound { get_or counts.old at 0 < max_rows }
    ensures finite { result ≡ finite_sum (add_row (held_at sums.old counts.old at) coefficient) }
    ensures sums { sums.new ≡ set sums.old at (add_row (held_at sums.old counts.old at) coefficient).coefficient }
    ensures counts { counts.new ≡ set counts.old at (add_row (held_at sums.old counts.old at) coefficient).rows }
{
    let sum = RowSum {
        coefficient: sums[at],
        rows: counts[at],
    };
    let now = sum.merged(coefficient);
    sums[at] = now.coefficient;
    counts[at] = now.rows;
    row_sum::is_finite(now.coefficient)
}

// Adds the coefficients in their order, each at its place; or names the first row that makes a running sum not finite.
pub fn add_rows(
    coefficients: &[f64],
    places: &[u16],
    sums: &mut [f64],
    counts: &mut [u32],
) -> Result<(), Refusal>
    requires coefficients_len_bound { length coefficients.now ≤ max_rows }
    requires places_len { length places.now ≡ max_rows }
    requires by_index { (i : ℕ) → i < length coefficients.now → get_or places.now i 0 < length coefficients.now }
    requires sums_value { sums.old ≡ replicate (length coefficients.now) zero }
    requires counts_value { counts.old ≡ replicate (length coefficients.now) 0 }
    ensures answer { outcome_of result ≡ verdict (overflow place_sums (placed nan places.now coefficients.now (length coefficients.now)) ∷ []) }
    ensures added { AddedAll result places.now coefficients.now sums.new counts.new }
{
    for i in 0..coefficients.len() {
        let at = places[i] as usize;
        if !add_row(coefficients[i], at, sums, counts) {
            return Err(Refusal::SumNotFinite(i));
        }
    }
    Ok(())
}
