// The rules of a phase table, each at every entry: a rule stops at the first entry that breaks it. Whoever calls a function here owes its
// `requires`.
ghost use Rattle.std.specs.Prelude.{◌≡◌, length};
ghost use Rattle.phases.specs.Rules.{turn, quarter, table_of, PhaseRange, each_below, entry_in_range, turned_right, order_right, product_right, norm_right, rules_test, passes};

use crate::{PHASES, QUARTER, entries};

// Whether every number lies in -UNIT .. UNIT.
pub fn range_kept(cosines: &[i64], sines: &[i64]) -> bool
    requires { (length cosines.now ≡ turn) × (length sines.now ≡ turn) }
    ensures { result ≡ each_below (entry_in_range (table_of cosines.now sines.now)) turn }
{
    for j in 0..PHASES {
        if !entries::range_at(cosines, sines, j) {
            return false;
        }
    }
    true
}

// Whether every entry a quarter turn on is the entry turned.
pub fn turned_kept(cosines: &[i64], sines: &[i64]) -> bool
    requires cosines_len { (length cosines.now ≡ turn) × (length sines.now ≡ turn) }
    requires phase_range { PhaseRange (table_of cosines.now sines.now) }
    ensures { result ≡ each_below (turned_right (table_of cosines.now sines.now)) turn }
{
    for j in 0..PHASES {
        if !entries::turned_at(cosines, sines, j) {
            return false;
        }
    }
    true
}

// Whether in the first quarter the cosine falls and the sine rises.
pub fn order_kept(cosines: &[i64], sines: &[i64]) -> bool
    requires { (length cosines.now ≡ turn) × (length sines.now ≡ turn) }
    ensures { result ≡ each_below (order_right (table_of cosines.now sines.now)) quarter }
{
    for j in 0..QUARTER {
        if !entries::order_at(cosines, sines, j) {
            return false;
        }
    }
    true
}

// Whether every entry times entry 1 is near UNIT times the next entry.
pub fn product_kept(cosines: &[i64], sines: &[i64]) -> bool
    requires cosines_len { (length cosines.now ≡ turn) × (length sines.now ≡ turn) }
    requires phase_range { PhaseRange (table_of cosines.now sines.now) }
    ensures { result ≡ each_below (product_right (table_of cosines.now sines.now)) turn }
{
    for j in 0..PHASES {
        if !entries::product_at(cosines, sines, j) {
            return false;
        }
    }
    true
}

// Whether the squared length of every entry is near UNIT squared.
pub fn norm_kept(cosines: &[i64], sines: &[i64]) -> bool
    requires cosines_len { (length cosines.now ≡ turn) × (length sines.now ≡ turn) }
    requires phase_range { PhaseRange (table_of cosines.now sines.now) }
    ensures { result ≡ each_below (norm_right (table_of cosines.now sines.now)) turn }
{
    for j in 0..PHASES {
        if !entries::norm_at(cosines, sines, j) {
            return false;
        }
    }
    true
}

// Whether a table whose numbers are in range keeps the rules.
pub fn rules_kept(cosines: &[i64], sines: &[i64]) -> bool
    requires cosines_len { (length cosines.now ≡ turn) × (length sines.now ≡ turn) }
    requires phase_range { PhaseRange (table_of cosines.now sines.now) }
    ensures { result ≡ rules_test (table_of cosines.now sines.now) }
{
    if !entries::first_right(cosines, sines) {
        return false;
    }
    if !turned_kept(cosines, sines) {
        return false;
    }
    if !order_kept(cosines, sines) {
        return false;
    }
    if !product_kept(cosines, sines) {
        return false;
    }
    norm_kept(cosines, sines)
}

// Whether a table passes: its range first, since without it the products may not be formed.
pub fn lists_pass(cosines: &[i64], sines: &[i64]) -> bool
    requires { (length cosines.now ≡ turn) × (length sines.now ≡ turn) }
    ensures { result ≡ passes (table_of cosines.now sines.now) }
{
    if !range_kept(cosines, sines) {
        return false;
    }
    rules_kept(cosines, sines)
}
