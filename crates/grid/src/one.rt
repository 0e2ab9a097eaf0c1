// Refinement where a set of candidates is one machine word: the rounds of a block on two words.
ghost use Rattle.std.specs.Prelude.{◌≡◌, Bool, false, ◌&&◌, cond, not, ℕ, suc, ◌+◌, ◌-◌, ◌%◌, ◌≤◌, ◌<◌, ltb, length, get_or};
ghost use Rattle.action.specs.Index.{order_of, add};
ghost use Rattle.elements.specs.HeldGroup.{HoldsGroup, generators_held};
ghost use Rattle.packed.specs.Packed.{word_bits, bit_at};
ghost use Rattle.grid.specs.Grid.{StepsBy};
ghost use Rattle.grid.specs.Candidates.{Left};
ghost use Rattle.grid.specs.Stages.{AloneIn, Refined};

use crate::candidates::Round;
use crate::refine;
use crate::refine::{PATIENCE, Stage};
use permutation::Lent;
use rotation::shape::Shapes;

// The candidates that are left, and where refining stops.
#[derive(Clone, Copy)]
pub struct Stopped {
    pub left: u64,
    pub stage: Stage,
}

impl Stopped {
    pub fn new(left: u64, stage: Stage) -> Self
        ensures { (result.left ≡ left) × (result.stage ≡ stage) }
    {
        Stopped { left, stage }
    }
}

// Of those left, the ones without a bit here, if there are some, else all.
pub fn strike_word(at: u64, left: u64) -> u64
    ensures left { (o t : ℕ) (F : ℕ → ℕ → Bool) → Left o F t (bit_at left) → ((k : ℕ) → k < o → bit_at at k ≡ F k t) → Left o F (suc t) (bit_at result) }
    ensures some { result ≡ 0 → result ≡ left }
{
    let rest = left ^ (left & at);
    if rest != 0 { rest } else { left }
}

// What a round comes to, by those left before it and after it.
pub fn round_word(before: u64, after: u64) -> Round
    requires { after ≡ 0 → after ≡ before }
    ensures { AloneIn result (bit_at after) }
{
    if after == before {
        return Round::Stale;
    }
    if after & (after - 1) == 0 {
        Round::Alone(u64::trailing_zeros(after) as usize)
    } else {
        Round::Struck
    }
}

// Each bit from s below it where the mask has it, and from t above it elsewhere.
pub fn turn(mask: u64, x: u64, s: usize, t: usize) -> u64
    ensures { (k : ℕ) → k < word_bits → bit_at result k ≡ cond (bit_at mask k) (not (ltb k s) && bit_at x (k - s)) (bit_at x (k + t)) }
{
    packed::shift::pick(
        mask,
        packed::shift::lifted(x, s),
        packed::shift::lowered(x, t),
    )
}

// The lowest digit of a number in base o, without a division at generator 0, where it is at hand.
pub fn digit_at(g: usize, low: usize, digits: usize, o: usize) -> usize
    requires { (0 < o) × (g ≡ 0 → low ≡ digits % o) }
    ensures { result ≡ digits % o }
{
    if g == 0 { low } else { digits % o }
}

// The lowest digit in base o of the next number.
pub fn next_digit(low: usize, o: usize) -> usize
    requires { low < word_bits }
    ensures small { result ≤ low + 1 }
    ensures next { (h : ℕ) → 0 < o → low ≡ h % o → result ≡ (h + 1) % o }
{
    if low + 1 == o { 0 } else { low + 1 }
}

// What `step` does, to one word; `low` is the first digit of h.
pub fn step_word(
    group: &Lent<'_>,
    shapes: &Shapes,
    masks: &[u64],
    order: usize,
    h: usize,
    low: usize,
    at: u64,
) -> u64
    requires tables { HoldsGroup group.now }
    requires order_value { order ≡ order_of (generators_held group.now) }
    requires steps { StepsBy group.now order 1 shapes.now masks.now }
    requires low_value { 0 < group.now.generators → low ≡ h % get_or group.now.orders.now 0 0 }
    requires by_index { (k : ℕ) → order ≤ k → bit_at at k ≡ false }
    ensures clear { (k : ℕ) → order ≤ k → bit_at result k ≡ false }
    ensures bits { (f : ℕ → Bool)
        → ((k : ℕ) → k < order → bit_at at k ≡ f (add (generators_held group.now) h k))
        → (k : ℕ) → k < order → bit_at result k ≡ f (add (generators_held group.now) (suc h) k) }
{
    let Lent {
        orders,
        generators,
        ..
    } = *group;
    let Shapes { strides, rests } = shapes;
    let mut x = at;
    let mut digits = h;
    for g in 0..generators {
        x = turn(masks[g], x, rests[g], strides[g]);
        let o = orders[g] as usize;
        if digit_at(g, low, digits, o) + 1 != o {
            return x;
        }
        digits = digits / o;
    }
    x
}

// Refines by one block, place after place. `at` holds the candidates' bits at its first place.
pub fn refine_word(
    group: &Lent<'_>,
    shapes: &Shapes,
    masks: &[u64],
    order: usize,
    at: u64,
    left: u64,
) -> Stopped
    requires tables { HoldsGroup group.now }
    requires order_value { order ≡ order_of (generators_held group.now) }
    requires steps { StepsBy group.now order 1 shapes.now masks.now }
    requires by_index { (k : ℕ) → order ≤ k → bit_at at k ≡ false }
    ensures { (F : ℕ → ℕ → Bool) (t : ℕ) → Left order F t (bit_at left)
        → ((h k : ℕ) → h < order → k < order → F k (t + h) ≡ bit_at at (add (generators_held group.now) h k))
        → Refined result.stage order F (t + order) (bit_at result.left) }
{
    let Lent { orders, .. } = *group;
    let first = orders[0] as usize;
    let mut here = at;
    let mut kept = left;
    let mut stale: usize = 0;
    let mut low: usize = 0;
    for h in 0..order {
        let next = strike_word(here, kept);
        let told = round_word(kept, next);
        kept = next;
        if let Round::Alone(k) = told {
            return Stopped::new(kept, Stage::Alone(k));
        }
        stale = refine::waited(told, stale);
        if PATIENCE < stale {
            return Stopped::new(kept, Stage::Tired);
        }
        here = step_word(group, shapes, masks, order, h, low, here);
        low = next_digit(low, first);
    }
    Stopped::new(kept, Stage::Through)
}
