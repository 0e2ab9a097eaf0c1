// A sector's decision by the candidates that lead on a grid: an index fixes the word exactly if its sum with the index back is one of them. Whoever calls a
// function here owes its `requires`.
ghost use Rattle.std.specs.Prelude.{◌≡◌, true, false, cond, ℕ, ◌+◌, ◌/◌, ◌%◌, ◌<◌, length, get_or};
ghost use Rattle.pauli_word.specs.Word.{Word};
ghost use Rattle.action.specs.Lists.{below, count};
ghost use Rattle.action.specs.Index.{order_of, add};
ghost use Rattle.action.specs.Orbit.{index_back};
ghost use Rattle.action.specs.Sector.{modulus as modulusOf, trivial};
ghost use Rattle.permutation.specs.Limits.{max_order};
ghost use Rattle.elements.specs.HeldGroup.{HoldsGroup, generators_held};
ghost use Rattle.packed.specs.Packed.{bit_of};
ghost use Rattle.grid.specs.Candidates.{Leading};
ghost use Rattle.decisions.specs.Placements.{placement_of};
ghost use Rattle.decisions.specs.Decisions.{decision};

use crate::phase;
use crate::placement::Placement;
use crate::stabilizer::Test;
use permutation::Lent;

// Whether every mode reduces to 0: then every index has numerator 0. Without generators it is so.
pub fn no_momentum(group: &Lent<'_>, modes: &[i32]) -> bool
    requires tables { HoldsGroup group.now }
    requires modes_len { length modes.now ≡ group.now.generators }
    ensures yes { result ≡ true → (i : ℕ) → trivial (generators_held group.now) modes.now i ≡ true }
    ensures no { result ≡ false → 0 < group.now.generators }
{
    let Lent {
        orders,
        generators,
        ..
    } = *group;
    for g in 0..generators {
        if phase::reduced_mode(modes[g], orders[g]) != 0 {
            return false;
        }
    }
    true
}

// How many of the numbers below a bound are in a set.
pub fn how_many(left: &[u64], bound: usize) -> usize
    ensures { result ≡ count (bit_of left.now) (below bound) }
{
    let mut count = 0;
    for k in 0..bound {
        count += if grid::candidates::holds(left, k) {
            1
        } else {
            0
        };
    }
    count
}

// The order by a count of fixing indices; 0 where none is counted, as 0 fixes every word.
pub fn size_by(order: usize, count: usize) -> usize
    ensures { 0 < count → result ≡ order / count }
{
    if count == 0 { 0 } else { order / count }
}

// Where a traversal of the indices stands: the sum of an index with another, and the first digits of the index and of the sum.
#[derive(Clone, Copy)]
pub struct Stand {
    pub sum: usize,
    pub low: usize,
    pub turn: usize,
}

// The next index: where its first digit does not roll over, 1 is added to that of the sum.
pub fn stepped(group: &Lent<'_>, other: usize, index: usize, at: Stand) -> Stand
    requires tables { HoldsGroup group.now }
    requires generators_nonzero { 0 < group.now.generators }
    requires index_lt_max_order { index < max_order }
    requires sum_value { (at.sum ≡ add (generators_held group.now) index other)
        × (at.low ≡ index % get_or group.now.orders.now 0 0) × (at.turn ≡ at.sum % get_or group.now.orders.now 0 0) }
    ensures { (result.sum ≡ add (generators_held group.now) (index + 1) other)
        × (result.low ≡ (index + 1) % get_or group.now.orders.now 0 0) × (result.turn ≡ result.sum % get_or group.now.orders.now 0 0) }
{
    let Lent { orders, .. } = *group;
    let o = orders[0] as usize;
    let sum = at.sum;
    let low = at.low;
    let turn = at.turn;
    if low + 1 == o {
        let next = elements::index::add(group, index + 1, other);
        return Stand {
            sum: next,
            low: 0,
            turn: next % o,
        };
    }
    if turn + 1 == o {
        Stand {
            sum: sum - turn,
            low: low + 1,
            turn: 0,
        }
    } else {
        Stand {
            sum: sum + 1,
            low: low + 1,
            turn: turn + 1,
        }
    }
}

// What an index does to a word, by whether its sum with the index back is among the candidates that lead.
pub fn tested(
    group: &Lent<'_>,
    m: usize,
    modes: &[i32],
    left: &[u64],
    index: usize,
    sum: usize,
) -> Test
    requires tables { HoldsGroup group.now }
    requires m_value { m ≡ modulusOf (generators_held group.now) }
    requires modes_len { length modes.now ≡ group.now.generators }
    ensures { result ≡ cond (bit_of left.now sum) (cond (trivial (generators_held group.now) modes.now index) Test.Fixes Test.Breaks) Test.Moves }
{
    if !grid::candidates::holds(left, sum) {
        return Test::Moves;
    }
    if phase::trivial(group, m, modes, index) {
        Test::Fixes
    } else {
        Test::Breaks
    }
}

// The decision, index by index: the first that fixes the word with a numerator other than 0 drops it.
pub fn placed_in_turn(
    group: &Lent<'_>,
    order: usize,
    m: usize,
    modes: &[i32],
    left: &[u64],
    back: usize,
) -> Placement
    requires tables { HoldsGroup group.now }
    requires generators_nonzero { 0 < group.now.generators }
    requires order_value { order ≡ order_of (generators_held group.now) }
    requires m_value { m ≡ modulusOf (generators_held group.now) }
    requires modes_len { length modes.now ≡ group.now.generators }
    ensures { (w : Word) → length w ≡ group.now.sites
        → Leading (generators_held group.now) w (bit_of left.now)
        → back ≡ index_back (generators_held group.now) w
        → result ≡ placement_of (decision (generators_held group.now) modes.now w) }
{
    let Lent { orders, .. } = *group;
    let sum = elements::index::add(group, 0, back);
    let mut at = Stand {
        sum,
        low: 0,
        turn: sum % (orders[0] as usize),
    };
    let mut count = 0;
    for d in 0..order {
        match tested(group, m, modes, left, d, at.sum) {
            Test::Breaks => return Placement::Dropped(d),
            Test::Fixes => count += 1,
            Test::Moves => {}
        }
        at = stepped(group, back, d, at);
    }
    Placement::Kept(back, size_by(order, count))
}

// What modes make of a word by the candidates that lead on a grid. `back` is the index back, itself such a candidate.
pub fn placed_by_leading(
    group: &Lent<'_>,
    order: usize,
    m: usize,
    modes: &[i32],
    left: &[u64],
    back: usize,
) -> Placement
    requires tables { HoldsGroup group.now }
    requires order_value { order ≡ order_of (generators_held group.now) }
    requires m_value { m ≡ modulusOf (generators_held group.now) }
    requires modes_len { length modes.now ≡ group.now.generators }
    ensures { (w : Word) → length w ≡ group.now.sites
        → Leading (generators_held group.now) w (bit_of left.now)
        → back ≡ index_back (generators_held group.now) w
        → result ≡ placement_of (decision (generators_held group.now) modes.now w) }
{
    if no_momentum(group, modes) {
        return Placement::Kept(back, size_by(order, how_many(left, order)));
    }
    placed_in_turn(group, order, m, modes, left, back)
}
