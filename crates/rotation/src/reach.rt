// The word that an index makes of a word: one rotation a generator, whatever the index.
ghost use Rattle.std.specs.Prelude.{◌≡◌, List, length};
ghost use Rattle.action.specs.Permutation.{Generator};
ghost use Rattle.action.specs.Orbit.{reach as reached};
ghost use Rattle.elements.specs.HeldGroup.{HoldsGroup, generators_held};
ghost use Rattle.packed.specs.Packed.{letters_at};
ghost use Rattle.rotation.specs.Rotation.{Rotations, Turns, Planes, Shaped};

use crate::planes;
use crate::shape::Shapes;
use permutation::Lent;

// Moves a word by each generator as often as its digit of the index says: by the stride that often, taken round the block.
pub fn reach(group: &Lent<'_>, shapes: &Shapes, index: usize, x: &mut [u64], z: &mut [u64])
    requires tables { HoldsGroup group.now }
    requires shapes { Shaped group.now shapes.now }
    requires planes_2 { Planes group.now.sites (length x.old) x.old z.old }
    ensures planes { Planes group.now.sites (length x.old) x.new z.new }
    ensures letters { letters_at group.now.sites x.new z.new ≡ reached (generators_held group.now) index (letters_at group.now.sites x.old z.old) }
{
    let Lent {
        orders,
        generators,
        sites,
        ..
    } = *group;
    reach_by(orders, generators, sites, shapes, index, x, z);
}

// The same by rotations alone: what generators that rotate so make of the word.
pub fn reach_by(
    orders: &[u32],
    generators: usize,
    sites: usize,
    shapes: &Shapes,
    index: usize,
    x: &mut [u64],
    z: &mut [u64],
)
    requires rotations { Rotations generators sites orders.now shapes.now.strides shapes.now.rests }
    requires planes_2 { Planes sites (length x.old) x.old z.old }
    ensures planes { Planes sites (length x.old) x.new z.new }
    ensures letters { (gs : List Generator) → Turns generators sites gs orders.now shapes.now.strides shapes.now.rests
        → letters_at sites x.new z.new ≡ reached gs index (letters_at sites x.old z.old) }
{
    let Shapes { strides, rests } = *shapes;
    let mut rest = index;
    for g in 0..generators {
        let o = orders[g] as usize;
        let stride = strides[g];
        let block = stride + rests[g];
        planes::turn_by(x, z, rest % o * stride % block, block, sites);
        rest = rest / o;
    }
}
