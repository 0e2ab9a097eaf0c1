// The least word of an orbit by masked rotations: the X planes walk alone, and the Z planes with them only where X planes tie.
ghost use Rattle.std.specs.Prelude.{◌≡◌, ◌*◌, ◌≤◌, length};
ghost use Rattle.pauli_word.specs.Bytes.{AcceptedWord, letters_in, bytes_of};
ghost use Rattle.action.specs.Index.{order_of};
ghost use Rattle.action.specs.Orbit.{least, forward, fixing};
ghost use Rattle.elements.specs.HeldGroup.{HoldsGroup, generators_held};
ghost use Rattle.packed.specs.Packed.{word_bits, plane_words, letters_at};
ghost use Rattle.rotation.specs.Rotation.{Planes, Shaped, Masked};

use crate::planes::MASK_WORDS;
use crate::shape::Shapes;
use crate::walk::Lead;
use crate::{planes, reach, walk};
use packed::PLANE_WORDS;
use pauli_word::WORD_BYTES;
use permutation::Lent;

// The least word of an orbit, the smallest index that reaches it, and how many indices do.
#[derive(Clone, Copy)]
pub struct Least {
    pub word: [u8; WORD_BYTES],
    pub index: usize,
    pub ties: usize,
}

// The walk from a word, which stays as it is: u and v hold the planes of the word at hand, xs and zs those of the best so far.
fn walk_copies(
    group: &Lent<'_>,
    shapes: &Shapes,
    keeps: &[u64],
    order: usize,
    x: &[u64],
    z: &[u64],
    u: &mut [u64],
    v: &mut [u64],
    xs: &mut [u64],
    zs: &mut [u64],
) -> Lead
    requires tables { HoldsGroup group.now }
    requires shapes { Shaped group.now shapes.now }
    requires masks { Masked group.now (length x.now) shapes.now keeps.now }
    requires planes { Planes group.now.sites (length x.now) x.now z.now }
    requires order_value { order ≡ order_of (generators_held group.now) }
    requires u_len { (length u.old ≡ length x.now) × (length v.old ≡ length z.now) }
    requires xs_len { (length xs.old ≡ length x.now) × (length zs.old ≡ length z.now) }
    ensures index { result.index ≡ forward (generators_held group.now) (letters_at group.now.sites x.now z.now) }
    ensures ties { result.ties ≡ length (fixing (generators_held group.now) (letters_at group.now.sites x.now z.now)) }
{
    packed::words::copy(x, u);
    packed::words::copy(z, v);
    packed::words::copy(x, xs);
    packed::words::copy(z, zs);
    let m = x.len();
    walk::walk_least(group, shapes, keeps, m, order, u, v, xs, zs)
}

// The walk from a word, with places for copies of its planes.
pub fn walk_from(
    group: &Lent<'_>,
    shapes: &Shapes,
    keeps: &[u64],
    order: usize,
    x: &[u64],
    z: &[u64],
) -> Lead
    requires tables { HoldsGroup group.now }
    requires shapes { Shaped group.now shapes.now }
    requires masks { Masked group.now (length x.now) shapes.now keeps.now }
    requires planes { Planes group.now.sites (length x.now) x.now z.now }
    requires order_value { order ≡ order_of (generators_held group.now) }
    ensures index { result.index ≡ forward (generators_held group.now) (letters_at group.now.sites x.now z.now) }
    ensures ties { result.ties ≡ length (fixing (generators_held group.now) (letters_at group.now.sites x.now z.now)) }
{
    let m = x.len();
    let k = z.len();
    let mut here_x = [0u64; PLANE_WORDS];
    let mut here_z = [0u64; PLANE_WORDS];
    let mut best_x = [0u64; PLANE_WORDS];
    let mut best_z = [0u64; PLANE_WORDS];
    walk_copies(
        group,
        shapes,
        keeps,
        order,
        x,
        z,
        &mut here_x[0..m],
        &mut here_z[0..k],
        &mut best_x[0..m],
        &mut best_z[0..k],
    )
}

// The smallest index that reaches the least word of a word's orbit, and how many do: by the X plane alone where only one index reaches its least.
pub fn lead_of(group: &Lent<'_>, shapes: &Shapes, order: usize, x: &[u64], z: &[u64]) -> Lead
    requires tables { HoldsGroup group.now }
    requires shapes { Shaped group.now shapes.now }
    requires z_len { (length z.now ≡ length x.now) × Planes group.now.sites (length x.now) x.now z.now }
    requires order_value { order ≡ order_of (generators_held group.now) }
    ensures index { result.index ≡ forward (generators_held group.now) (letters_at group.now.sites x.now z.now) }
    ensures ties { result.ties ≡ length (fixing (generators_held group.now) (letters_at group.now.sites x.now z.now)) }
{
    let Lent {
        generators,
        sites,
        ..
    } = *group;
    let m = x.len();
    let mut keeps = [0u64; MASK_WORDS];
    planes::fill_masks(
        &shapes.strides,
        &shapes.rests,
        generators,
        sites,
        m,
        &mut keeps,
    );
    let lead = walk_from(group, shapes, &keeps, order, x, &z[0..0]);
    if lead.ties == 1 {
        lead
    } else {
        walk_from(group, shapes, &keeps, order, x, z)
    }
}

// The least word of a word's orbit, the smallest index that reaches it, and how many do: in the planes x and z, where the word moves.
fn least_in(
    group: &Lent<'_>,
    shapes: &Shapes,
    order: usize,
    word: &[u8],
    x: &mut [u64],
    z: &mut [u64],
) -> Least
    requires tables { HoldsGroup group.now }
    requires shapes { Shaped group.now shapes.now }
    requires accepted_word { AcceptedWord group.now.sites word.now }
    requires order_value { order ≡ order_of (generators_held group.now) }
    requires x_len_bound { (length x.old ≤ plane_words) × (group.now.sites ≤ word_bits * length x.old) × (length z.old ≡ length x.old) }
    ensures word { result.word ≡ bytes_of (least (generators_held group.now) (letters_in group.now.sites word.now)) }
    ensures index { result.index ≡ forward (generators_held group.now) (letters_in group.now.sites word.now) }
    ensures ties { result.ties ≡ length (fixing (generators_held group.now) (letters_in group.now.sites word.now)) }
{
    let Lent { sites, .. } = *group;
    planes::pack_planes(word, sites, x, z);
    let lead = lead_of(group, shapes, order, x, z);
    let index = lead.index;
    reach::reach(group, shapes, index, x, z);
    let out = planes::unpack_planes(x, z, sites);
    Least {
        word: out,
        index,
        ties: lead.ties,
    }
}

// The least word of a word's orbit, the smallest index that reaches it, and how many do.
pub fn least_by_masks(group: &Lent<'_>, shapes: &Shapes, order: usize, word: &[u8]) -> Least
    requires tables { HoldsGroup group.now }
    requires shapes { Shaped group.now shapes.now }
    requires accepted_word { AcceptedWord group.now.sites word.now }
    requires order_value { order ≡ order_of (generators_held group.now) }
    ensures word { result.word ≡ bytes_of (least (generators_held group.now) (letters_in group.now.sites word.now)) }
    ensures index { result.index ≡ forward (generators_held group.now) (letters_in group.now.sites word.now) }
    ensures ties { result.ties ≡ length (fixing (generators_held group.now) (letters_in group.now.sites word.now)) }
{
    let Lent { sites, .. } = *group;
    let m = planes::words_in_use(sites);
    let mut x = [0u64; PLANE_WORDS];
    let mut z = [0u64; PLANE_WORDS];
    least_in(group, shapes, order, word, &mut x[0..m], &mut z[0..m])
}
