// Which groups are grids, by the shapes of their generators.
ghost use Rattle.std.specs.Prelude.{◌≡◌, true, ◌+◌, ◌*◌, ◌≤◌, ◌<◌};
ghost use Rattle.pauli_word.specs.Limits.{max_sites};
ghost use Rattle.permutation.specs.Limits.{max_order};
ghost use Rattle.elements.specs.HeldGroup.{HoldsGroup};
ghost use Rattle.rotation.specs.Rotation.{Shaped};
ghost use Rattle.grid.specs.Grid.{Axis, OnAxes};

use permutation::Lent;
use rotation::shape::Shapes;

// Whether generators that rotate by their strides inside blocks shift along axes: each by the product of the orders before its own, inside blocks of that
// times its own order. The identity has order 1, and shifts along an axis of one place.
pub fn is_grid(group: &Lent<'_>, shapes: &Shapes) -> bool
    requires tables { HoldsGroup group.now }
    requires shapes { Shaped group.now shapes.now }
    ensures { result ≡ true → OnAxes group.now shapes.now }
{
    let Lent {
        orders,
        generators,
        ..
    } = *group;
    let Shapes { strides, rests } = *shapes;
    let mut place: usize = 1;
    for g in 0..generators {
        let o = orders[g] as usize;
        if !is_axis(place, o, strides[g], rests[g]) {
            return false;
        }
        place = place * o;
    }
    true
}

// Whether a rotation by a stride shifts along an axis whose places are this far apart.
pub fn is_axis(place: usize, order: usize, stride: usize, rest: usize) -> bool
    requires { (0 < place) × (0 < order) × (place * order ≤ max_order) × (stride + rest ≤ max_sites + max_sites) }
    ensures { result ≡ true → Axis place order stride rest }
{
    if order == 1 {
        stride == 0 && rest == 1
    } else {
        stride == place && stride + rest == place * order
    }
}
