// The bits of all candidates at one place of a block, and at the next.
ghost use Rattle.std.specs.Prelude.{◌≡◌, Bool, ℕ, suc, ◌<◌, length};
ghost use Rattle.action.specs.Index.{order_of, add};
ghost use Rattle.elements.specs.HeldGroup.{HoldsGroup, generators_held};
ghost use Rattle.packed.specs.Packed.{bit_of, Clear};
ghost use Rattle.grid.specs.Grid.{StepsBy};

use permutation::Lent;
use rotation::shape::Shapes;

// From the candidates' bits at place h of a block to those at the next: each has the bit of the candidate that is one further on along the first axis, and
// along each next one while the digits of h below roll over.
pub fn step(
    group: &Lent<'_>,
    shapes: &Shapes,
    masks: &[u64],
    order: usize,
    h: usize,
    at: &mut [u64],
)
    requires tables { HoldsGroup group.now }
    requires order_value { order ≡ order_of (generators_held group.now) }
    requires steps { StepsBy group.now order (length at.old) shapes.now masks.now }
    requires clear_2 { Clear order at.old }
    ensures clear { Clear order at.new }
    ensures bits { (f : ℕ → Bool)
        → ((k : ℕ) → k < order → bit_of at.old k ≡ f (add (generators_held group.now) h k))
        → (k : ℕ) → k < order → bit_of at.new k ≡ f (add (generators_held group.now) (suc h) k) }
{
    let Lent {
        orders,
        generators,
        ..
    } = *group;
    let Shapes { strides, rests } = shapes;
    let m = at.len();
    let mut digits = h;
    for g in 0..generators {
        let start = m * g;
        let end = start + m;
        let rest = rests[g];
        packed::shift::rotate_kept(at, &masks[start..end], rest, strides[g] + rest, order);
        let o = orders[g] as usize;
        if digits % o + 1 != o {
            return;
        }
        digits = digits / o;
    }
}
