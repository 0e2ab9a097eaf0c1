// The rules of a phase table at one entry. Whoever calls a function here owes its `requires`.
ghost use Rattle.std.specs.Prelude.{◌≡◌, ◌<◌, length};
ghost use Rattle.phases.specs.Rules.{turn, quarter, table_of, PhaseRange, entry_in_range, first_right, turned_right, order_right, product_right, norm_right};

use crate::{PHASES, QUARTER, UNIT, integers};

// Whether the numbers of entry j lie in -UNIT .. UNIT.
pub fn range_at(cosines: &[i64], sines: &[i64], j: usize) -> bool
    requires cosines_len { (length cosines.now ≡ turn) × (length sines.now ≡ turn) }
    requires j_lt_turn { j < turn }
    ensures { result ≡ entry_in_range (table_of cosines.now sines.now) j }
{
    if !integers::in_unit(cosines[j]) {
        return false;
    }
    integers::in_unit(sines[j])
}

// Whether entry 0 is (UNIT, 0).
pub fn first_right(cosines: &[i64], sines: &[i64]) -> bool
    requires { (length cosines.now ≡ turn) × (length sines.now ≡ turn) }
    ensures { result ≡ first_right (table_of cosines.now sines.now) }
{
    if !integers::same(cosines[0], UNIT) {
        return false;
    }
    integers::same(sines[0], 0)
}

// Whether the entry a quarter turn after entry j is entry j turned.
pub fn turned_at(cosines: &[i64], sines: &[i64], j: usize) -> bool
    requires cosines_len { (length cosines.now ≡ turn) × (length sines.now ≡ turn) }
    requires phase_range { PhaseRange (table_of cosines.now sines.now) }
    requires j_lt_turn { j < turn }
    ensures { result ≡ turned_right (table_of cosines.now sines.now) j }
{
    let k = (j + QUARTER) % PHASES;
    if !integers::same(cosines[k], -sines[j]) {
        return false;
    }
    integers::same(sines[k], cosines[j])
}

// Whether from entry j to the next the cosine falls and the sine rises.
pub fn order_at(cosines: &[i64], sines: &[i64], j: usize) -> bool
    requires cosines_len { (length cosines.now ≡ turn) × (length sines.now ≡ turn) }
    requires j_lt_quarter { j < quarter }
    ensures { result ≡ order_right (table_of cosines.now sines.now) j }
{
    let k = j + 1;
    if !integers::below(cosines[k], cosines[j]) {
        return false;
    }
    integers::below(sines[j], sines[k])
}

// Whether entry j times entry 1 is near UNIT times the next entry.
pub fn product_at(cosines: &[i64], sines: &[i64], j: usize) -> bool
    requires cosines_len { (length cosines.now ≡ turn) × (length sines.now ≡ turn) }
    requires phase_range { PhaseRange (table_of cosines.now sines.now) }
    requires j_lt_turn { j < turn }
    ensures { result ≡ product_right (table_of cosines.now sines.now) j }
{
    let c = cosines[j];
    let s = sines[j];
    let x = cosines[1];
    let y = sines[1];
    let k = (j + 1) % PHASES;
    if !integers::sum_near(c, x, s, -y, cosines[k]) {
        return false;
    }
    integers::sum_near(c, y, s, x, sines[k])
}

// Whether the squared length of entry j is near UNIT squared.
pub fn norm_at(cosines: &[i64], sines: &[i64], j: usize) -> bool
    requires cosines_len { (length cosines.now ≡ turn) × (length sines.now ≡ turn) }
    requires phase_range { PhaseRange (table_of cosines.now sines.now) }
    requires j_lt_turn { j < turn }
    ensures { result ≡ norm_right (table_of cosines.now sines.now) j }
{
    let c = cosines[j];
    let s = sines[j];
    integers::sum_near(c, c, s, s, UNIT)
}
