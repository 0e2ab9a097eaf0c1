// Which permutations rotate the sites inside blocks of one length, found in work linear in the sites.
ghost use Rattle.std.specs.Prelude.{◌≡◌, true, ℕ, ◌+◌, ◌%◌, ◌≤◌, ◌<◌, length, get_or, replicate, IfSome};
ghost use Rattle.pauli_word.specs.Limits.{max_sites};
ghost use Rattle.permutation.specs.Limits.{max_generators, target_places};
ghost use Rattle.rotation.specs.Rotation.{rotation, Rotates, Shaped};

use pauli_word::MAX_SITES;
use permutation::{Lent, MAX_GENERATORS};

// A shift by a stride inside blocks of the stride and a rest.
#[derive(Clone, Copy)]
pub struct Shape {
    pub stride: usize,
    pub rest: usize,
}

// The shapes of a group's generators: the stride and the rest of each.
#[derive(Clone, Copy)]
pub struct Shapes {
    pub strides: [usize; MAX_GENERATORS],
    pub rests: [usize; MAX_GENERATORS],
}

impl Shapes {
    // Room for the shapes of any group.
    pub fn new() -> Shapes
        ensures { (result.strides ≡ replicate max_generators 0) × (result.rests ≡ replicate max_generators 0) }
    {
        Shapes {
            strides: [0usize; MAX_GENERATORS],
            rests: [0usize; MAX_GENERATORS],
        }
    }
}

// The site that goes to site 0, or the number of sites.
pub fn source_of_zero(perm: &[u16]) -> usize
    ensures { result ≤ length perm.now }
{
    for q in 0..perm.len() {
        if perm[q] == 0 {
            return q;
        }
    }
    perm.len()
}

// A place below two blocks, taken round.
pub fn round(place: usize, block: usize) -> usize
    requires { place < block + block }
    ensures { result ≡ place % block }
{
    if place < block { place } else { place - block }
}

// Whether the block from a site on is rotated by a stride.
pub fn block_rotates(perm: &[u16], base: usize, stride: usize, block: usize) -> bool
    requires { (stride < block) × (base + block ≤ length perm.now) × (length perm.now ≤ max_sites) }
    ensures { result ≡ true → (p : ℕ) → p < block → get_or perm.now (base + p) 0 ≡ base + (p + stride) % block }
{
    for place in 0..block {
        let target = perm[base + place] as usize;
        if target != base + round(place + stride, block) {
            return false;
        }
    }
    true
}

// Whether a permutation rotates by a stride inside blocks, every site of every block looked at.
pub fn rotates(perm: &[u16], stride: usize, block: usize) -> bool
    requires { (stride < block) × (length perm.now % block ≡ 0) × (length perm.now ≤ max_sites) }
    ensures { result ≡ true → perm.now ≡ rotation (length perm.now) stride block }
{
    let mut base = 0;
    // A while: with `step_by` the last turn leaves without the fact that the blocks are at their end, and the proof did not close.
    while base < perm.len() {
        if !block_rotates(perm, base, stride, block) {
            return false;
        }
        base += block;
    }
    true
}

// The shape of a permutation, if it has one. Where site 0 goes is the stride, and what goes to site 0 stands at the rest; the identity is a shift
// by 0 in blocks of one site.
pub fn shape_of(perm: &[u16]) -> Option<Shape>
    requires { length perm.now ≤ max_sites }
    ensures { IfSome result (λ s. Rotates (length perm.now) s.stride (s.stride + s.rest) perm.now) }
{
    let sites = perm.len();
    let stride = if sites == 0 { 0 } else { perm[0] as usize };
    let rest = if stride == 0 { 1 } else { source_of_zero(perm) };
    if MAX_SITES < stride {
        return None;
    }
    if MAX_SITES < rest {
        return None;
    }
    if rest == 0 {
        return None;
    }
    if sites % (stride + rest) != 0 {
        return None;
    }
    if rotates(perm, stride, stride + rest) {
        Some(Shape { stride, rest })
    } else {
        None
    }
}

// The shapes of all generators, if each has one.
pub fn find_shapes(group: &Lent<'_>) -> Option<Shapes>
    requires { (length group.now.targets.now ≡ target_places) × (group.now.generators ≤ max_generators) × (group.now.sites ≤ max_sites) }
    ensures { IfSome result (λ s. Shaped group.now s) }
{
    let Lent {
        targets,
        generators,
        sites,
        ..
    } = *group;
    let mut shapes = Shapes::new();
    for g in 0..generators {
        let start = MAX_SITES * g;
        let end = start + sites;
        let Shape { stride, rest } = shape_of(&targets[start..end])?;
        shapes.strides[g] = stride;
        shapes.rests[g] = rest;
    }
    Some(shapes)
}
