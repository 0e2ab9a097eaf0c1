// Phase numerators: what a mode list makes of a counter or an index. Whoever calls a function here owes its `requires`.
ghost use Rattle.std.specs.Prelude.{◌≡◌, ◌*◌, ◌/◌, ◌%◌, ◌<◌, length};
ghost use Rattle.action.specs.Index.{order_of, digits};
ghost use Rattle.action.specs.Sector.{modulus as modulusOf, reduced, numerator as numeratorOf, trivial as trivialAt};
ghost use Rattle.elements.specs.HeldGroup.{HoldsGroup, generators_held};
ghost use Rattle.decisions.specs.Decisions.{numerators};

use permutation::{Lent, MAX_GENERATORS};

// A mode reduced to 0 .. order - 1: -1 becomes order - 1.
pub fn reduced_mode(mode: i32, order: u32) -> u64
    requires { 0 < order }
    ensures { result ≡ reduced order mode }
{
    let o = order as i64;
    let r = (mode as i64) % o;
    if r < 0 { (r + o) as u64 } else { r as u64 }
}

// What one generator adds: (k c mod o) (m / o), both factors reduced first. Products stay below 2^64.
pub fn phase(mode: i32, digit: u32, order: u32, modulus: u64) -> u64
    requires { 0 < order }
    ensures { result ≡ reduced order mode * (digit % order) % order * (modulus / order) }
{
    let o = order as u64;
    let k = reduced_mode(mode, order);
    let c = (digit as u64) % o;
    k * c % o * (modulus / o)
}

// The numerator of a counter.
pub fn numerator(group: &Lent<'_>, modulus: usize, modes: &[i32], counter: &[u32]) -> usize
    requires tables { HoldsGroup group.now }
    requires modulus_value { modulus ≡ modulusOf (generators_held group.now) }
    requires modes_len { (length modes.now ≡ group.now.generators) × (length counter.now ≡ group.now.generators) }
    ensures { result ≡ numeratorOf (generators_held group.now) modes.now counter.now }
{
    let Lent {
        orders,
        generators,
        ..
    } = *group;
    let m = modulus as u64;
    let mut sum: u64 = 0;
    for g in 0..generators {
        sum = sum + phase(modes[g], counter[g], orders[g], m);
    }
    (sum % m) as usize
}

// The numerator of an index.
pub fn numerator_at(group: &Lent<'_>, modulus: usize, modes: &[i32], index: usize) -> usize
    requires tables { HoldsGroup group.now }
    requires modulus_value { modulus ≡ modulusOf (generators_held group.now) }
    requires modes_len { length modes.now ≡ group.now.generators }
    ensures { result ≡ numeratorOf (generators_held group.now) modes.now (digits (generators_held group.now) index) }
{
    let Lent { generators, .. } = *group;
    let mut counter = [0u32; MAX_GENERATORS];
    elements::index::fill_counter(group, index, &mut counter);
    numerator(group, modulus, modes, &counter[0..generators])
}

// Whether the character of an index is 1.
pub fn trivial(group: &Lent<'_>, modulus: usize, modes: &[i32], index: usize) -> bool
    requires tables { HoldsGroup group.now }
    requires modulus_value { modulus ≡ modulusOf (generators_held group.now) }
    requires modes_len { length modes.now ≡ group.now.generators }
    ensures { result ≡ trivialAt (generators_held group.now) modes.now index }
{
    numerator_at(group, modulus, modes, index) == 0
}

// The numerators of all indices below the order.
pub fn fill_table(group: &Lent<'_>, modulus: usize, modes: &[i32], list: &mut [usize])
    requires tables { HoldsGroup group.now }
    requires modulus_value { modulus ≡ modulusOf (generators_held group.now) }
    requires modes_len { length modes.now ≡ group.now.generators }
    requires list_len { length list.old ≡ order_of (generators_held group.now) }
    ensures { list.new ≡ numerators (generators_held group.now) modes.now }
{
    for i in 0..list.len() {
        list[i] = numerator_at(group, modulus, modes, i);
    }
}
