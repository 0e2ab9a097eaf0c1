// Groups: of a buyer's generators and of lattices; their orders and their indices.
ghost use Rattle.std.specs.Prelude.{◌≡◌, length};
ghost use Rattle.outcome.specs.Outcome.{or_else, itself};
ghost use Rattle.group.specs.Value.{no_group, try_from_outcome, group_in};
ghost use Rattle.group.specs.Calls.{chain_outcome, ladder_outcome, torus2_outcome, torus3_outcome, order_outcome, modulus_outcome, counter_outcome, index_outcome, invert_outcome};
ghost use Rattle.c_api.specs.Told.{number_of, values_of};

use crate::{VALUES, told};
use permutation::{Lent, MAX_GENERATORS, TARGET_PLACES};

// The group of n sites by a buyer's generators, in one list, each its length and then its targets, and their declared orders.
#[unsafe(no_mangle)]
pub extern "C" fn gomurin_try_from_generators(
    n: usize,
    list: &[u32],
    declared: &[u32],
    sites: &mut usize,
    generators: &mut usize,
    orders: &mut [u32; MAX_GENERATORS],
    targets: &mut [u16; TARGET_PLACES],
    values: &mut [usize; VALUES],
) -> usize
    ensures number { result ≡ number_of (try_from_outcome n list.now declared.now) }
    ensures sites { sites.new ≡ (or_else itself no_group (try_from_outcome n list.now declared.now)).sites }
    ensures generators { generators.new ≡ (or_else itself no_group (try_from_outcome n list.now declared.now)).generators }
    ensures orders { orders.new ≡ (or_else itself no_group (try_from_outcome n list.now declared.now)).orders }
    ensures targets { targets.new ≡ (or_else itself no_group (try_from_outcome n list.now declared.now)).targets }
    ensures values { values.new ≡ values_of (try_from_outcome n list.now declared.now) }
{
    told::made(
        group::try_from_generators(n, list, declared),
        sites,
        generators,
        orders,
        targets,
        values,
    )
}

// A ring of n sites: site q moves to q + 1, round at the end.
#[unsafe(no_mangle)]
pub extern "C" fn gomurin_chain_1d(
    n: usize,
    sites: &mut usize,
    generators: &mut usize,
    orders: &mut [u32; MAX_GENERATORS],
    targets: &mut [u16; TARGET_PLACES],
    values: &mut [usize; VALUES],
) -> usize
    ensures number { result ≡ number_of (chain_outcome n) }
    ensures sites { sites.new ≡ (or_else itself no_group (chain_outcome n)).sites }
    ensures generators { generators.new ≡ (or_else itself no_group (chain_outcome n)).generators }
    ensures orders { orders.new ≡ (or_else itself no_group (chain_outcome n)).orders }
    ensures targets { targets.new ≡ (or_else itself no_group (chain_outcome n)).targets }
    ensures values { values.new ≡ values_of (chain_outcome n) }
{
    told::made(
        group::chain_1d(n),
        sites,
        generators,
        orders,
        targets,
        values,
    )
}

// Legs of l sites each, site j of a leg at leg * l + j: all legs shift together along their length.
#[unsafe(no_mangle)]
pub extern "C" fn gomurin_ladder(
    l: usize,
    legs: usize,
    sites: &mut usize,
    generators: &mut usize,
    orders: &mut [u32; MAX_GENERATORS],
    targets: &mut [u16; TARGET_PLACES],
    values: &mut [usize; VALUES],
) -> usize
    ensures number { result ≡ number_of (ladder_outcome l legs) }
    ensures sites { sites.new ≡ (or_else itself no_group (ladder_outcome l legs)).sites }
    ensures generators { generators.new ≡ (or_else itself no_group (ladder_outcome l legs)).generators }
    ensures orders { orders.new ≡ (or_else itself no_group (ladder_outcome l legs)).orders }
    ensures targets { targets.new ≡ (or_else itself no_group (ladder_outcome l legs)).targets }
    ensures values { values.new ≡ values_of (ladder_outcome l legs) }
{
    told::made(
        group::ladder(l, legs),
        sites,
        generators,
        orders,
        targets,
        values,
    )
}

// A torus of lx by ly sites, (i, j) at j * lx + i: the shifts of i and of j.
#[unsafe(no_mangle)]
pub extern "C" fn gomurin_torus_2d(
    lx: usize,
    ly: usize,
    sites: &mut usize,
    generators: &mut usize,
    orders: &mut [u32; MAX_GENERATORS],
    targets: &mut [u16; TARGET_PLACES],
    values: &mut [usize; VALUES],
) -> usize
    ensures number { result ≡ number_of (torus2_outcome lx ly) }
    ensures sites { sites.new ≡ (or_else itself no_group (torus2_outcome lx ly)).sites }
    ensures generators { generators.new ≡ (or_else itself no_group (torus2_outcome lx ly)).generators }
    ensures orders { orders.new ≡ (or_else itself no_group (torus2_outcome lx ly)).orders }
    ensures targets { targets.new ≡ (or_else itself no_group (torus2_outcome lx ly)).targets }
    ensures values { values.new ≡ values_of (torus2_outcome lx ly) }
{
    told::made(
        group::torus_2d(lx, ly),
        sites,
        generators,
        orders,
        targets,
        values,
    )
}

// A torus of lx by ly by lz sites, (i, j, k) at k * lx * ly + j * lx + i: the shifts of i, of j and of k.
#[unsafe(no_mangle)]
pub extern "C" fn gomurin_torus_3d(
    lx: usize,
    ly: usize,
    lz: usize,
    sites: &mut usize,
    generators: &mut usize,
    orders: &mut [u32; MAX_GENERATORS],
    targets: &mut [u16; TARGET_PLACES],
    values: &mut [usize; VALUES],
) -> usize
    ensures number { result ≡ number_of (torus3_outcome lx ly lz) }
    ensures sites { sites.new ≡ (or_else itself no_group (torus3_outcome lx ly lz)).sites }
    ensures generators { generators.new ≡ (or_else itself no_group (torus3_outcome lx ly lz)).generators }
    ensures orders { orders.new ≡ (or_else itself no_group (torus3_outcome lx ly lz)).orders }
    ensures targets { targets.new ≡ (or_else itself no_group (torus3_outcome lx ly lz)).targets }
    ensures values { values.new ≡ values_of (torus3_outcome lx ly lz) }
{
    told::made(
        group::torus_3d(lx, ly, lz),
        sites,
        generators,
        orders,
        targets,
        values,
    )
}

// The group order: the product of the orders, so that two equal generators count as two.
#[unsafe(no_mangle)]
pub extern "C" fn gomurin_order<'a>(
    sites: usize,
    generators: usize,
    orders: &'a [u32; MAX_GENERATORS],
    targets: &'a [u16; TARGET_PLACES],
    order: &mut usize,
    values: &mut [usize; VALUES],
) -> usize
    ensures number { result ≡ number_of (order_outcome (group_in sites generators orders.now targets.now)) }
    ensures order { order.new ≡ or_else itself 0 (order_outcome (group_in sites generators orders.now targets.now)) }
    ensures values { values.new ≡ values_of (order_outcome (group_in sites generators orders.now targets.now)) }
{
    let group = Lent {
        sites,
        generators,
        orders,
        targets,
    };
    told::number(group::order(&group), order, values)
}

// The phase modulus: the least common multiple of the orders.
#[unsafe(no_mangle)]
pub extern "C" fn gomurin_phase_modulus<'a>(
    sites: usize,
    generators: usize,
    orders: &'a [u32; MAX_GENERATORS],
    targets: &'a [u16; TARGET_PLACES],
    modulus: &mut usize,
    values: &mut [usize; VALUES],
) -> usize
    ensures number { result ≡ number_of (modulus_outcome (group_in sites generators orders.now targets.now)) }
    ensures modulus { modulus.new ≡ or_else itself 0 (modulus_outcome (group_in sites generators orders.now targets.now)) }
    ensures values { values.new ≡ values_of (modulus_outcome (group_in sites generators orders.now targets.now)) }
{
    let group = Lent {
        sites,
        generators,
        orders,
        targets,
    };
    told::number(group::phase_modulus(&group), modulus, values)
}

// The digits of an index, generator 0 first, into a list with a place for each generator.
#[unsafe(no_mangle)]
pub extern "C" fn gomurin_counter_from_index<'a>(
    sites: usize,
    generators: usize,
    orders: &'a [u32; MAX_GENERATORS],
    targets: &'a [u16; TARGET_PLACES],
    index: usize,
    counter: &mut [u32],
    values: &mut [usize; VALUES],
) -> usize
    ensures number { result ≡ number_of (counter_outcome (group_in sites generators orders.now targets.now) index (length counter.old)) }
    ensures counter { counter.new ≡ or_else itself counter.old (counter_outcome (group_in sites generators orders.now targets.now) index (length counter.old)) }
    ensures values { values.new ≡ values_of (counter_outcome (group_in sites generators orders.now targets.now) index (length counter.old)) }
{
    let group = Lent {
        sites,
        generators,
        orders,
        targets,
    };
    told::verdict(&group::counter_from_index(&group, index, counter), values)
}

// The index of a counter: a digit for each generator, each below its generator's order, generator 0 first and fastest.
#[unsafe(no_mangle)]
pub extern "C" fn gomurin_index_from_counter<'a>(
    sites: usize,
    generators: usize,
    orders: &'a [u32; MAX_GENERATORS],
    targets: &'a [u16; TARGET_PLACES],
    counter: &[u32],
    index: &mut usize,
    values: &mut [usize; VALUES],
) -> usize
    ensures number { result ≡ number_of (index_outcome (group_in sites generators orders.now targets.now) counter.now) }
    ensures index { index.new ≡ or_else itself 0 (index_outcome (group_in sites generators orders.now targets.now) counter.now) }
    ensures values { values.new ≡ values_of (index_outcome (group_in sites generators orders.now targets.now) counter.now) }
{
    let group = Lent {
        sites,
        generators,
        orders,
        targets,
    };
    told::number(group::index_from_counter(&group, counter), index, values)
}

// The index of the inverse element.
#[unsafe(no_mangle)]
pub extern "C" fn gomurin_invert_index<'a>(
    sites: usize,
    generators: usize,
    orders: &'a [u32; MAX_GENERATORS],
    targets: &'a [u16; TARGET_PLACES],
    index: usize,
    inverse: &mut usize,
    values: &mut [usize; VALUES],
) -> usize
    ensures number { result ≡ number_of (invert_outcome (group_in sites generators orders.now targets.now) index) }
    ensures inverse { inverse.new ≡ or_else itself 0 (invert_outcome (group_in sites generators orders.now targets.now) index) }
    ensures values { values.new ≡ values_of (invert_outcome (group_in sites generators orders.now targets.now) index) }
{
    let group = Lent {
        sites,
        generators,
        orders,
        targets,
    };
    told::number(group::invert_index(&group, index), inverse, values)
}
