// Indices and their digits. Whoever calls a function here owes its `requires`.
ghost use Rattle.std.specs.Prelude.{◌≡◌, ◌++◌, ◌≤◌, ◌<◌, length, drop};
ghost use Rattle.action.specs.Index.{order_of, digits, Digits, digits_below, index as index_of, add as addOf, inverse};
ghost use Rattle.action.specs.Sector.{modulus};
ghost use Rattle.elements.specs.HeldGroup.{HoldsGroup, generators_held};

use permutation::Lent;

// The group order: the product of the orders.
pub fn order(group: &Lent<'_>) -> usize
    requires { HoldsGroup group.now }
    ensures { result ≡ order_of (generators_held group.now) }
{
    let Lent {
        orders,
        generators,
        ..
    } = *group;
    let mut product: usize = 1;
    for g in 0..generators {
        product = product * (orders[g] as usize);
    }
    product
}

// The phase modulus: the least common multiple of the orders.
pub fn phase_modulus(group: &Lent<'_>) -> usize
    requires { HoldsGroup group.now }
    ensures { result ≡ modulus (generators_held group.now) }
{
    let Lent {
        orders,
        generators,
        ..
    } = *group;
    let mut least: u64 = 1;
    for g in (0..generators).rev() {
        let o = orders[g] as u64;
        least = o / permutation::inner::gcd(o, least) * least;
    }
    least as usize
}

// The digits of an index, into the first places of counter; the others stay.
pub fn fill_counter(group: &Lent<'_>, index: usize, counter: &mut [u32])
    requires tables { HoldsGroup group.now }
    requires generators_in_bounds { group.now.generators ≤ length counter.old }
    ensures { counter.new ≡ digits (generators_held group.now) index ++ drop group.now.generators counter.old }
{
    let Lent {
        orders,
        generators,
        ..
    } = *group;
    let mut rest = index;
    for g in 0..generators {
        let o = orders[g] as usize;
        counter[g] = (rest % o) as u32;
        rest = rest / o;
    }
}

// Whether each digit of a counter is below its generator's order.
pub fn are_digits(group: &Lent<'_>, counter: &[u32]) -> bool
    requires tables { HoldsGroup group.now }
    requires counter_len { length counter.now ≡ group.now.generators }
    ensures { result ≡ digits_below (generators_held group.now) counter.now }
{
    let Lent {
        orders,
        generators,
        ..
    } = *group;
    for g in 0..generators {
        if orders[g] <= counter[g] {
            return false;
        }
    }
    true
}

// The index of digits, from the last generator's on: generator 0 is the fastest.
pub fn index_of(group: &Lent<'_>, counter: &[u32]) -> usize
    requires tables { HoldsGroup group.now }
    requires digits { Digits (generators_held group.now) counter.now }
    ensures { result ≡ index_of (generators_held group.now) counter.now }
{
    let Lent {
        orders,
        generators,
        ..
    } = *group;
    let mut index: usize = 0;
    for g in (0..generators).rev() {
        index = (counter[g] as usize) + (orders[g] as usize) * index;
    }
    index
}

// The inverse of an index: digit by digit (o - c) mod o.
pub fn invert(group: &Lent<'_>, index: usize) -> usize
    requires { HoldsGroup group.now }
    ensures { result ≡ inverse (generators_held group.now) index }
{
    let Lent {
        orders,
        generators,
        ..
    } = *group;
    let mut rest = index;
    let mut place: usize = 1;
    let mut out: usize = 0;
    for g in 0..generators {
        let o = orders[g] as usize;
        out = out + (o - rest % o) % o * place;
        place = place * o;
        rest = rest / o;
    }
    out
}

// The sum of two indices: digit by digit (c + d) mod o.
pub fn add(group: &Lent<'_>, i: usize, j: usize) -> usize
    requires { HoldsGroup group.now }
    ensures { result ≡ addOf (generators_held group.now) i j }
{
    let Lent {
        orders,
        generators,
        ..
    } = *group;
    let mut a = i;
    let mut b = j;
    let mut place: usize = 1;
    let mut out: usize = 0;
    for g in 0..generators {
        let o = orders[g] as usize;
        out = out + (a % o + b % o) % o * place;
        place = place * o;
        a = a / o;
        b = b / o;
    }
    out
}
