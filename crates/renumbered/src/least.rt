// The word that an index makes of a word whose planes are read through the table.
ghost use Rattle.std.specs.Prelude.{◌≡◌, Bool, ℕ, ◌<◌, length};
ghost use Rattle.action.specs.Orbit.{reach as reached};
ghost use Rattle.elements.specs.HeldGroup.{HoldsGroup, generators_held};
ghost use Rattle.packed.specs.Packed.{bit_of, letters_by, letters_at};
ghost use Rattle.rotation.specs.Rotation.{Planes};
ghost use Rattle.grid.specs.Grid.{OnAxes};
ghost use Rattle.renumbered.specs.Renumbered.{at, Renumbered};

use crate::gather;
use permutation::Lent;
use rotation::shape::Shapes;

// Moves the word along the axes in the planes u and v, where bit a is that of the site with number a, and reads it back into x and z, where bit q is that of
// site q.
pub fn reach(
    group: &Lent<'_>,
    shapes: &Shapes,
    index: usize,
    site: &[u16],
    place: &[u16],
    u: &mut [u64],
    v: &mut [u64],
    x: &mut [u64],
    z: &mut [u64],
)
    requires tables { HoldsGroup group.now }
    requires axes { OnAxes group.now shapes.now }
    requires renumbered { Renumbered group.now.sites (generators_held group.now) site.now place.now }
    requires planes_2 { Planes group.now.sites (length u.old) u.old v.old × (length v.old ≡ length u.old) }
    requires x_len { (length x.old ≡ length u.old) × (length z.old ≡ length u.old) }
    ensures planes { Planes group.now.sites (length x.old) x.new z.new }
    ensures letters { (f g : ℕ → Bool) → ((a : ℕ) → a < group.now.sites → bit_of u.old a ≡ f (at site.now a)) → ((a : ℕ) → a < group.now.sites → bit_of v.old a ≡ g (at site.now a))
        → letters_at group.now.sites x.new z.new ≡ reached (generators_held group.now) index (letters_by group.now.sites f g) }
{
    let Lent {
        orders,
        generators,
        sites,
        ..
    } = *group;
    rotation::reach::reach_by(orders, generators, sites, shapes, index, u, v);
    gather::gather(u, place, sites, x);
    gather::gather(v, place, sites, z);
}
