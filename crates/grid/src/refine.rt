// Refinement: block after block of the X plane and then of the Z plane, place after place, candidates are struck out.
ghost use Rattle.std.specs.Prelude.{◌≡◌, Bool, ℕ, ◌+◌, ◌*◌, ◌%◌, ◌≤◌, ◌<◌, length};
ghost use Rattle.action.specs.Index.{order_of, add};
ghost use Rattle.elements.specs.HeldGroup.{HoldsGroup, generators_held};
ghost use Rattle.packed.specs.Packed.{word_bits, plane_words, bit_of, Clear, letters_at};
ghost use Rattle.rotation.specs.Rotation.{Planes, Shaped};
ghost use Rattle.grid.specs.Grid.{Grid, further, StepsBy};
ghost use Rattle.grid.specs.Candidates.{Left};
ghost use Rattle.grid.specs.Stages.{patience, is_tired, Refined, Staged};

use crate::candidates::Round;
use crate::{block, candidates, one, step};
use packed::PLANE_WORDS;
use permutation::Lent;
use rotation::shape::Shapes;

// How many rounds in a row may strike out no candidate before refining stops.
pub const PATIENCE: usize = 16;

// Where refining stops.
#[derive(Clone, Copy)]
pub enum Stage {
    // One candidate is left, and it is this one.
    Alone(usize),
    // All bits are read.
    Through,
    // Many rounds in a row struck out none.
    Tired,
}

impl Stage {
    // Whether refining stopped before its end with more than one left.
    pub fn is_tired(self) -> bool
        ensures { result ≡ is_tired self }
    {
        match self {
            Stage::Alone(_) => false,
            Stage::Through => false,
            Stage::Tired => true,
        }
    }
}

// How many rounds in a row struck out none, after one more.
pub fn waited(round: Round, stale: usize) -> usize
    requires { stale ≤ patience }
    ensures { result ≤ stale + 1 }
{
    match round {
        Round::Stale => stale + 1,
        Round::Struck => 0,
        Round::Alone(_) => 0,
    }
}

// Refines by one block, place after place, where a set is any number of machine words. `at` holds the candidates' bits at its first place.
pub fn refine_words(
    group: &Lent<'_>,
    shapes: &Shapes,
    masks: &[u64],
    order: usize,
    at: &mut [u64],
    left: &mut [u64],
) -> Stage
    requires tables { HoldsGroup group.now }
    requires order_value { order ≡ order_of (generators_held group.now) }
    requires steps { StepsBy group.now order (length at.old) shapes.now masks.now }
    requires clear { Clear order at.old × (length left.old ≡ length at.old) }
    ensures { (F : ℕ → ℕ → Bool) (t : ℕ) → Left order F t (bit_of left.old)
        → ((h k : ℕ) → h < order → k < order → F k (t + h) ≡ bit_of at.old (add (generators_held group.now) h k))
        → Refined result order F (t + order) (bit_of left.new) }
{
    let mut stale: usize = 0;
    for h in 0..order {
        let told = candidates::strike_round(at, left);
        if let Round::Alone(k) = told {
            return Stage::Alone(k);
        }
        stale = waited(told, stale);
        if PATIENCE < stale {
            return Stage::Tired;
        }
        step::step(group, shapes, masks, order, h, at);
    }
    Stage::Through
}

// Refines by one block: where a set is one machine word, by plain numbers. `at` holds the candidates' bits at its first place.
pub fn refine_block(
    group: &Lent<'_>,
    shapes: &Shapes,
    masks: &[u64],
    order: usize,
    at: &mut [u64],
    left: &mut [u64],
) -> Stage
    requires tables { HoldsGroup group.now }
    requires order_value { order ≡ order_of (generators_held group.now) }
    requires steps { StepsBy group.now order (length at.old) shapes.now masks.now }
    requires clear { Clear order at.old × (length left.old ≡ length at.old) }
    ensures { (F : ℕ → ℕ → Bool) (t : ℕ) → Left order F t (bit_of left.old)
        → ((h k : ℕ) → h < order → k < order → F k (t + h) ≡ bit_of at.old (add (generators_held group.now) h k))
        → Refined result order F (t + order) (bit_of left.new) }
{
    if at.len() == 1 {
        let stopped = one::refine_word(group, shapes, masks, order, at[0], left[0]);
        left[0] = stopped.left;
        return stopped.stage;
    }
    refine_words(group, shapes, masks, order, at, left)
}

// Refines by the block of a plane that begins at a site. A block whose bits are all alike strikes out none.
pub fn refine_at(
    group: &Lent<'_>,
    shapes: &Shapes,
    masks: &[u64],
    order: usize,
    plane: &[u64],
    base: usize,
    at: &mut [u64],
    left: &mut [u64],
) -> Stage
    requires tables { HoldsGroup group.now }
    requires order_value { order ≡ order_of (generators_held group.now) }
    requires steps { StepsBy group.now order (length at.old) shapes.now masks.now }
    requires base_le_sites { (base ≤ group.now.sites) × (length left.old ≡ length at.old) }
    ensures { (F : ℕ → ℕ → Bool) (t : ℕ) → Left order F t (bit_of left.old)
        → ((h k : ℕ) → h < order → k < order → F k (t + h) ≡ bit_of plane.now (base + add (generators_held group.now) h k))
        → Refined result order F (t + order) (bit_of left.new) }
{
    block::take_block(plane, base, order, at);
    if block::alike(at, order) {
        return Stage::Through;
    }
    refine_block(group, shapes, masks, order, at, left)
}

// Refines by a plane, block after block.
pub fn refine_plane(
    group: &Lent<'_>,
    shapes: &Shapes,
    masks: &[u64],
    order: usize,
    plane: &[u64],
    at: &mut [u64],
    left: &mut [u64],
) -> Stage
    requires tables { HoldsGroup group.now }
    requires order_value { (order ≡ order_of (generators_held group.now)) × Grid group.now.sites (generators_held group.now) }
    requires steps { StepsBy group.now order (length at.old) shapes.now masks.now }
    requires left_len { length left.old ≡ length at.old }
    ensures { (F : ℕ → ℕ → Bool) (t : ℕ) → Left order F t (bit_of left.old)
        → ((q k : ℕ) → q < group.now.sites → k < order → F k (t + q) ≡ bit_of plane.now (further (generators_held group.now) k q))
        → Refined result order F (t + group.now.sites) (bit_of left.new) }
{
    let Lent { sites, .. } = *group;
    let mut base = 0;
    // A while: with `step_by` the last turn leaves without the fact that the blocks are at their end, and the proof did not close.
    while base < sites {
        let stage = refine_at(group, shapes, masks, order, plane, base, at, left);
        match stage {
            Stage::Alone(k) => {
                return Stage::Alone(k);
            }
            Stage::Tired => {
                return Stage::Tired;
            }
            Stage::Through => {
                base += order;
            }
        }
    }
    Stage::Through
}

// Refines by the X plane, and then by the Z plane those that it leaves; `at` is room for a block.
pub fn refine_planes(
    group: &Lent<'_>,
    shapes: &Shapes,
    masks: &[u64],
    order: usize,
    x: &[u64],
    z: &[u64],
    at: &mut [u64],
    left: &mut [u64],
) -> Stage
    requires tables { HoldsGroup group.now }
    requires order_value { (order ≡ order_of (generators_held group.now)) × Grid group.now.sites (generators_held group.now) }
    requires steps { StepsBy group.now order (length at.old) shapes.now masks.now }
    requires left_len { length left.old ≡ length at.old }
    requires by_index { (F : ℕ → ℕ → Bool) → Left order F 0 (bit_of left.old) }
    ensures { Staged result (generators_held group.now) (letters_at group.now.sites x.now z.now) (bit_of left.new) }
{
    let stage = refine_plane(group, shapes, masks, order, x, at, left);
    match stage {
        Stage::Alone(k) => Stage::Alone(k),
        Stage::Tired => Stage::Tired,
        Stage::Through => refine_plane(group, shapes, masks, order, z, at, left),
    }
}

// The candidates that are left of all where refining stops.
pub fn refine(
    group: &Lent<'_>,
    shapes: &Shapes,
    masks: &[u64],
    order: usize,
    x: &[u64],
    z: &[u64],
    left: &mut [u64],
) -> Stage
    requires tables { HoldsGroup group.now }
    requires order_value { order ≡ order_of (generators_held group.now) }
    requires shapes { Shaped group.now shapes.now }
    requires steps { StepsBy group.now order (length left.old) shapes.now masks.now }
    ensures { Staged result (generators_held group.now) (letters_at group.now.sites x.now z.now) (bit_of left.new) }
{
    packed::shift::fill_run(0, order, left);
    let m = left.len();
    let mut at = [0u64; PLANE_WORDS];
    refine_planes(group, shapes, masks, order, x, z, &mut at[0..m], left)
}
