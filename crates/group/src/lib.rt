// A finite abelian group of site permutations, by a buyer's commuting generators or by a lattice; its orders and its indices. A generator moves
// site q's letter to site perm[q]; index i stands for digits, one below each order, generator 0 fastest. What a group does to words is the crate
// orbit's.
//
// No call here asks anything of its caller: bad input is refused by number, and lent lists are then as they were.
#![tactic(auto)]

mod index;
pub mod inner;
mod make;

ghost use Rattle.std.specs.Prelude.{◌≡◌, length};
ghost use Rattle.outcome.specs.Outcome.{outcome_of, on_answer, done, itself, or_else};
ghost use Rattle.group.specs.Value.{try_from_outcome, group_lent};
ghost use Rattle.group.specs.Calls.{chain_outcome, ladder_outcome, torus2_outcome, torus3_outcome, order_outcome, modulus_outcome, counter_outcome, index_outcome, invert_outcome};

use outcome::Refusal;
use pauli_word::MAX_SITES;
use permutation::{Lent, MAX_GENERATORS, TARGET_PLACES};

// A group by its generators: generator g's targets stand at MAX_SITES * g, 16 bits each, unused places are 0. Each call that takes one tests it
// first (14). The value is large: calls take it lent.
#[derive(Clone, Copy)]
pub struct Group {
    pub sites: usize,
    pub generators: usize,
    pub orders: [u32; MAX_GENERATORS],
    pub targets: [u16; TARGET_PLACES],
}

impl Group {
    // The same group, its tables lent.
    pub fn lent(&self) -> Lent<'_>
        ensures { group_lent result ≡ self.now }
    {
        Lent {
            sites: self.sites,
            generators: self.generators,
            orders: &self.orders,
            targets: &self.targets,
        }
    }
}

// The group of a buyer's generators: sites, the generators in one list, each its length and then its targets, and their orders.
// Refusals 1 to 13, in that order. Costs work in proportion to sites times generators (for the pairs, times generators again).
pub fn try_from_generators(sites: usize, list: &[u32], orders: &[u32]) -> Result<Group, Refusal>
    ensures { outcome_of result ≡ try_from_outcome sites list.now orders.now }
{
    if MAX_SITES < sites {
        return Err(Refusal::TooManySites);
    }
    let Ok(count) = generators::list::count_generators(list) else {
        return Err(Refusal::ListEndsInside);
    };
    if MAX_GENERATORS < count {
        return Err(Refusal::TooManyGenerators);
    }
    if count != orders.len() {
        return Err(Refusal::LengthMismatch(count, orders.len()));
    }
    make::made(sites, list, orders, count)
}

// A ring of n sites: site q moves to q + 1, round at the end.
pub fn chain_1d(n: usize) -> Result<Group, Refusal>
    ensures { outcome_of result ≡ chain_outcome n }
{
    make::lattice(n, 1, 1, 1)
}

// Legs of l sites each, site j of a leg at leg * l + j: all legs shift together along their length.
pub fn ladder(l: usize, legs: usize) -> Result<Group, Refusal>
    ensures { outcome_of result ≡ ladder_outcome l legs }
{
    make::lattice(l, legs, 1, 1)
}

// A torus of lx by ly sites, (i, j) at j * lx + i: the shifts of i and of j.
pub fn torus_2d(lx: usize, ly: usize) -> Result<Group, Refusal>
    ensures { outcome_of result ≡ torus2_outcome lx ly }
{
    make::lattice(lx, ly, 1, 2)
}

// A torus of lx by ly by lz sites, (i, j, k) at k * lx * ly + j * lx + i: the shifts of i, of j and of k.
pub fn torus_3d(lx: usize, ly: usize, lz: usize) -> Result<Group, Refusal>
    ensures { outcome_of result ≡ torus3_outcome lx ly lz }
{
    make::lattice(lx, ly, lz, 3)
}

// The group order: the product of the orders, so that two equal generators count as two.
pub fn order(group: &Lent<'_>) -> Result<usize, Refusal>
    ensures answer { outcome_of result ≡ order_outcome (group_lent group.now) }
{
    inner::value_checked(group)?;
    Ok(elements::index::order(group))
}

// The phase modulus: the least common multiple of the orders.
pub fn phase_modulus(group: &Lent<'_>) -> Result<usize, Refusal>
    ensures answer { outcome_of result ≡ modulus_outcome (group_lent group.now) }
{
    inner::value_checked(group)?;
    Ok(elements::index::phase_modulus(group))
}

// The digits of an index, generator 0 first, into a list with a place for each generator.
pub fn counter_from_index(
    group: &Lent<'_>,
    index: usize,
    counter: &mut [u32],
) -> Result<(), Refusal>
    ensures answer { outcome_of result ≡ on_answer done (counter_outcome (group_lent group.now) index (length counter.old)) }
    ensures counter { counter.new ≡ or_else itself counter.old (counter_outcome (group_lent group.now) index (length counter.old)) }
{
    inner::value_checked(group)?;
    index::counter_of(group, index, counter)
}

// The index of a counter: a digit for each generator, each below its generator's order, generator 0 first and fastest.
pub fn index_from_counter(group: &Lent<'_>, counter: &[u32]) -> Result<usize, Refusal>
    ensures answer { outcome_of result ≡ index_outcome (group_lent group.now) counter.now }
{
    inner::value_checked(group)?;
    index::index_of(group, counter)
}

// The index of the inverse element.
pub fn invert_index(group: &Lent<'_>, index: usize) -> Result<usize, Refusal>
    ensures answer { outcome_of result ≡ invert_outcome (group_lent group.now) index }
{
    inner::value_checked(group)?;
    index::inverse_of(group, index)
}
