// The rotations that shift along the axes of a grid with given orders as sides.
ghost use Rattle.std.specs.Prelude.{◌+◌, ◌*◌, ◌≤◌, ◌<◌};
ghost use Rattle.pauli_word.specs.Limits.{max_sites};
ghost use Rattle.action.specs.Index.{order_of};
ghost use Rattle.elements.specs.HeldGroup.{HoldsGroup, generators_held};
ghost use Rattle.grid.specs.Grid.{Axis, OnAxes};

use permutation::Lent;
use rotation::shape::{Shape, Shapes};

// The rotation that shifts along an axis whose places are this far apart.
fn axis_shape(place: usize, order: usize) -> Shape
    requires { (0 < place) × (0 < order) × (place * order ≤ max_sites) }
    ensures axis { Axis place order result.stride result.rest }
    ensures some { 0 < result.rest }
    ensures small { result.stride + result.rest ≤ max_sites + max_sites }
{
    if order == 1 {
        Shape { stride: 0, rest: 1 }
    } else {
        Shape {
            stride: place,
            rest: place * (order - 1),
        }
    }
}

// The strides and the rests of a grid's generators: each shifts by the product of the orders before its own, inside blocks of that times its own order. One
// of order 1 is the rotation by 0 inside blocks of one site.
pub fn axis_shapes(group: &Lent<'_>) -> Shapes
    requires tables { HoldsGroup group.now }
    requires orders_bound { order_of (generators_held group.now) ≤ max_sites }
    ensures { OnAxes group.now result }
{
    let Lent {
        orders,
        generators,
        ..
    } = *group;
    let mut shapes = Shapes::new();
    let mut place: usize = 1;
    for g in 0..generators {
        let o = orders[g] as usize;
        let shape = axis_shape(place, o);
        shapes.strides[g] = shape.stride;
        shapes.rests[g] = shape.rest;
        place = place * o;
    }
    shapes
}
