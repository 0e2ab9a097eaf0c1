// Lattices: their sides (26, 27) and the shifts along their axes. Whoever calls a function here owes its `requires`.
ghost use Rattle.std.specs.Prelude.{◌≡◌, map, ◌*◌, ◌≤◌, ◌<◌, length, replicate};
ghost use Rattle.pauli_word.specs.Limits.{max_sites};
ghost use Rattle.action.specs.Arithmetic.{product};
ghost use Rattle.action.specs.Lists.{below};
ghost use Rattle.action.specs.Lattice.{shifted as shiftedSite, shifts};
ghost use Rattle.permutation.specs.Limits.{target_places, max_generators};
ghost use Rattle.generators.specs.Parts.{sides_outcome};
ghost use Rattle.generators.specs.Tables.{filled, placed_all};
ghost use Rattle.outcome.specs.Outcome.{outcome_of};

use outcome::Refusal;
use pauli_word::MAX_SITES;

// The sites of a lattice by its sides: their product, found without overflow; or 26, 27.
pub fn sites_of(a: usize, b: usize, c: usize) -> Result<usize, Refusal>
    ensures { outcome_of result ≡ sides_outcome a b c }
{
    if a == 0 {
        return Err(Refusal::ZeroSide);
    }
    if b == 0 {
        return Err(Refusal::ZeroSide);
    }
    if c == 0 {
        return Err(Refusal::ZeroSide);
    }
    if MAX_SITES / a < b {
        return Err(Refusal::SidesTooLarge);
    }
    if MAX_SITES / (a * b) < c {
        return Err(Refusal::SidesTooLarge);
    }
    Ok(a * b * c)
}

// Where a shift along an axis sends site q.
pub fn shifted(stride: usize, side: usize, q: usize) -> usize
    requires { (0 < stride) × (0 < side) × (stride * side ≤ max_sites) × (q < max_sites) }
    ensures { result ≡ shiftedSite stride side q }
{
    let block = stride * side;
    let place = q / stride % side;
    q % stride + stride * ((place + 1) % side) + block * (q / block)
}

// The targets of a shift along an axis.
pub fn fill_shift(row: &mut [u16], stride: usize, side: usize)
    requires { (0 < stride) × (0 < side) × (stride * side ≤ max_sites) × (length row.old ≤ max_sites) }
    ensures { row.new ≡ map (shiftedSite stride side) (below (length row.old)) }
{
    for q in 0..row.len() {
        row[q] = shifted(stride, side, q) as u16;
    }
}

// The targets and orders of the shifts along the axes with these sides, over zeros: axis g's places are a stride apart, the product of the
// sides before it.
pub fn fill_shifts(sides: &[usize], sites: usize, targets: &mut [u16], orders: &mut [u32])
    requires sides_len_bound { (length sides.now ≤ max_generators) × (sites ≤ max_sites) × (0 < product sides.now) × (product sides.now ≤ max_sites) }
    requires targets_value { (targets.old ≡ replicate target_places 0) × (orders.old ≡ replicate max_generators 0) }
    ensures targets { targets.new ≡ placed_all (map (λ g. g.perm) (shifts sites 1 sides.now)) }
    ensures orders { orders.new ≡ filled max_generators (map (λ g. g.order) (shifts sites 1 sides.now)) }
{
    let mut stride = 1;
    for g in 0..sides.len() {
        let side = sides[g];
        let start = MAX_SITES * g;
        let end = start + sites;
        fill_shift(&mut targets[start..end], stride, side);
        orders[g] = side as u32;
        stride = stride * side;
    }
}
