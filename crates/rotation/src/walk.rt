// The walk over an orbit by masked rotations. Whoever calls a function here owes its `requires`.
ghost use Rattle.std.specs.Prelude.{◌≡◌, ◌≤◌, length};
ghost use Rattle.pauli_word.specs.Calls.{order_of_words};
ghost use Rattle.permutation.specs.Limits.{max_order};
ghost use Rattle.action.specs.Index.{order_of, digits};
ghost use Rattle.action.specs.Orbit.{stepped, forward, fixing};
ghost use Rattle.elements.specs.HeldGroup.{HoldsGroup, generators_held};
ghost use Rattle.rotation.specs.Rotation.{Planes, led, tied, Shaped, Masked};
ghost use Rattle.packed.specs.Packed.{letters_at};

use crate::planes;
use crate::shape::Shapes;
use permutation::Lent;
use std::cmp::Ordering;

// The smallest index that reaches the least word so far, and how many indices so far reach it.
#[derive(Clone, Copy)]
pub struct Lead {
    pub index: usize,
    pub ties: usize,
}

// The walk's step from the entry of an index to the next.
pub fn advance(
    group: &Lent<'_>,
    shapes: &Shapes,
    keeps: &[u64],
    m: usize,
    index: usize,
    x: &mut [u64],
    z: &mut [u64],
)
    requires tables { HoldsGroup group.now }
    requires shapes { Shaped group.now shapes.now }
    requires masks { Masked group.now m shapes.now keeps.now }
    requires planes_2 { Planes group.now.sites m x.old z.old }
    ensures planes { Planes group.now.sites m x.new z.new }
    ensures letters { letters_at group.now.sites x.new z.new ≡ stepped (generators_held group.now) (digits (generators_held group.now) index) (letters_at group.now.sites x.old z.old) }
{
    let Lent {
        orders,
        generators,
        sites,
        ..
    } = *group;
    let Shapes { strides, rests } = *shapes;
    let mut rest = index;
    for g in 0..generators {
        let start = m * g;
        let end = start + m;
        let stride = strides[g];
        planes::turn(x, z, &keeps[start..end], stride, stride + rests[g], sites);
        let o = orders[g] as usize;
        if rest % o + 1 != o {
            return;
        }
        rest = rest / o;
    }
}

// Puts the word at hand, entry i of the walk, in the place of the best so far if it is less, and counts it if it is the same.
pub fn take_lead(
    x: &[u64],
    z: &[u64],
    sites: usize,
    i: usize,
    xs: &mut [u64],
    zs: &mut [u64],
    lead: Lead,
) -> Lead
    requires z_len { (length z.now ≡ length zs.old) × (lead.ties ≤ max_order) }
    requires planes { Planes sites (length xs.old) x.now z.now }
    requires planes_2 { Planes sites (length xs.old) xs.old zs.old }
    ensures index { result.index ≡ led (order_of_words (letters_at sites x.now z.now) (letters_at sites xs.old zs.old)) i lead.index }
    ensures ties { result.ties ≡ tied (order_of_words (letters_at sites x.now z.now) (letters_at sites xs.old zs.old)) lead.ties }
    ensures x { xs.new ≡ led (order_of_words (letters_at sites x.now z.now) (letters_at sites xs.old zs.old)) x.now xs.old }
    ensures z { zs.new ≡ led (order_of_words (letters_at sites x.now z.now) (letters_at sites xs.old zs.old)) z.now zs.old }
{
    match planes::order_of(x, z, xs, zs, sites) {
        Ordering::Less => {
            packed::words::copy(x, xs);
            packed::words::copy(z, zs);
            Lead { index: i, ties: 1 }
        }
        Ordering::Equal => Lead {
            index: lead.index,
            ties: lead.ties + 1,
        },
        Ordering::Greater => lead,
    }
}

// The smallest index that reaches the least word of a word's orbit, and how many do, by walking it whole. The word is at hand and is the best so far.
pub fn walk_least(
    group: &Lent<'_>,
    shapes: &Shapes,
    keeps: &[u64],
    m: usize,
    order: usize,
    x: &mut [u64],
    z: &mut [u64],
    xs: &mut [u64],
    zs: &mut [u64],
) -> Lead
    requires tables { HoldsGroup group.now }
    requires shapes { Shaped group.now shapes.now }
    requires masks { Masked group.now m shapes.now keeps.now }
    requires planes { Planes group.now.sites m x.old z.old × (xs.old ≡ x.old) × (zs.old ≡ z.old) }
    requires order_value { order ≡ order_of (generators_held group.now) }
    ensures index { result.index ≡ forward (generators_held group.now) (letters_at group.now.sites x.old z.old) }
    ensures ties { result.ties ≡ length (fixing (generators_held group.now) (letters_at group.now.sites x.old z.old)) }
{
    let Lent { sites, .. } = *group;
    let mut lead = Lead { index: 0, ties: 0 };
    for i in 0..order {
        lead = take_lead(x, z, sites, i, xs, zs, lead);
        advance(group, shapes, keeps, m, i, x, z);
    }
    lead
}
