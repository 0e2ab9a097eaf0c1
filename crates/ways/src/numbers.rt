// The least word of a group that acts freely, by refinement through a table of other numbers.
ghost use Rattle.std.specs.Prelude.{◌≡◌, false, ◌*◌, ◌≤◌, length};
ghost use Rattle.pauli_word.specs.Limits.{word_length};
ghost use Rattle.pauli_word.specs.Word.{Word};
ghost use Rattle.pauli_word.specs.Bytes.{AcceptedWord, letters_in, bytes_of};
ghost use Rattle.action.specs.Index.{order_of};
ghost use Rattle.action.specs.Orbit.{least as least_of, forward as forwardOf, index_back};
ghost use Rattle.elements.specs.HeldGroup.{HoldsGroup, generators_held};
ghost use Rattle.packed.specs.Packed.{word_bits, plane_words, bit_of};
ghost use Rattle.rotation.specs.Rotation.{Planes};
ghost use Rattle.grid.specs.Grid.{OnAxes};
ghost use Rattle.grid.specs.Candidates.{Leading};
ghost use Rattle.grid.specs.Stages.{is_tired, Staged};
ghost use Rattle.renumbered.specs.Renumbered.{Renumbered};
ghost use Rattle.paths.specs.Paths.{Says};
ghost use Rattle.ways.specs.Through.{ReadThrough};

use grid::refine::Stage;
use packed::PLANE_WORDS;
use paths::least::{Fixing, Led};
use permutation::Lent;
use rotation::shape::Shapes;

// The smallest index that reaches the least word, by what refining left.
pub fn forward_by(stage: Stage, group: &Lent<'_>, order: usize, left: &[u64]) -> usize
    requires tables { HoldsGroup group.now }
    requires order_value { order ≡ order_of (generators_held group.now) }
    ensures { (w : Word) → length w ≡ group.now.sites → is_tired stage ≡ false → Staged stage (generators_held group.now) w (bit_of left.now) → result ≡ forwardOf (generators_held group.now) w }
{
    if let Stage::Alone(k) = stage {
        return elements::index::invert(group, k);
    }
    grid::settle::forward_of(group, order, left)
}

// The least word where the smallest index that reaches it is known: u and v hold the word read through the table, x and z are room.
pub fn give(
    group: &Lent<'_>,
    shapes: &Shapes,
    forward: usize,
    site: &[u16],
    place: &[u16],
    word: &[u8],
    left: &[u64],
    u: &mut [u64],
    v: &mut [u64],
    x: &mut [u64],
    z: &mut [u64],
    out: &mut [u8],
) -> Led
    requires tables { HoldsGroup group.now }
    requires axes { OnAxes group.now shapes.now }
    requires renumbered { Renumbered group.now.sites (generators_held group.now) site.now place.now }
    requires accepted_word { AcceptedWord group.now.sites word.now }
    requires forward_value { (forward ≡ forwardOf (generators_held group.now) (letters_in group.now.sites word.now)) × Leading (generators_held group.now) (letters_in group.now.sites word.now) (bit_of left.now) }
    requires planes { Planes group.now.sites (length u.old) u.old v.old × (length v.old ≡ length u.old) × (length x.old ≡ length u.old) × (length z.old ≡ length u.old) }
    requires read_through { ReadThrough group.now.sites site.now u.old v.old (letters_in group.now.sites word.now) }
    requires out_len { length out.old ≡ word_length }
    ensures word { out.new ≡ bytes_of (least_of (generators_held group.now) (letters_in group.now.sites word.now)) }
    ensures index { result.index ≡ index_back (generators_held group.now) (letters_in group.now.sites word.now) }
    ensures fixing { Says result.fixing (generators_held group.now) (letters_in group.now.sites word.now) left.now }
{
    let Lent { sites, .. } = *group;
    renumbered::least::reach(group, shapes, forward, site, place, u, v, x, z);
    rotation::planes::put_planes(x, z, sites, out);
    Led {
        index: elements::index::invert(group, forward),
        fixing: Fixing::Leading,
    }
}

// The least word by what refining left.
pub fn by_stage(
    stage: Stage,
    group: &Lent<'_>,
    shapes: &Shapes,
    order: usize,
    site: &[u16],
    place: &[u16],
    word: &[u8],
    left: &[u64],
    u: &mut [u64],
    v: &mut [u64],
    x: &mut [u64],
    z: &mut [u64],
    out: &mut [u8],
) -> Led
    requires tables { HoldsGroup group.now }
    requires order_value { order ≡ order_of (generators_held group.now) }
    requires axes { OnAxes group.now shapes.now }
    requires renumbered { Renumbered group.now.sites (generators_held group.now) site.now place.now }
    requires accepted_word { AcceptedWord group.now.sites word.now × (is_tired stage ≡ false) × Staged stage (generators_held group.now) (letters_in group.now.sites word.now) (bit_of left.now) }
    requires planes { Planes group.now.sites (length u.old) u.old v.old × (length v.old ≡ length u.old) × (length x.old ≡ length u.old) × (length z.old ≡ length u.old) }
    requires read_through { ReadThrough group.now.sites site.now u.old v.old (letters_in group.now.sites word.now) }
    requires out_len { length out.old ≡ word_length }
    ensures word { out.new ≡ bytes_of (least_of (generators_held group.now) (letters_in group.now.sites word.now)) }
    ensures index { result.index ≡ index_back (generators_held group.now) (letters_in group.now.sites word.now) }
    ensures fixing { Says result.fixing (generators_held group.now) (letters_in group.now.sites word.now) left.now }
{
    let forward = forward_by(stage, group, order, left);
    give(
        group, shapes, forward, site, place, word, left, u, v, x, z, out,
    )
}

// The least word, with planes to work in.
pub fn in_planes(
    group: &Lent<'_>,
    shapes: &Shapes,
    order: usize,
    site: &[u16],
    place: &[u16],
    word: &[u8],
    u: &mut [u64],
    v: &mut [u64],
    x: &mut [u64],
    z: &mut [u64],
    left: &mut [u64],
    out: &mut [u8],
) -> Led
    requires tables { HoldsGroup group.now }
    requires order_value { order ≡ order_of (generators_held group.now) }
    requires axes { OnAxes group.now shapes.now }
    requires renumbered { Renumbered group.now.sites (generators_held group.now) site.now place.now }
    requires accepted_word { AcceptedWord group.now.sites word.now }
    requires u_len_bound { (length u.old ≤ plane_words) × (group.now.sites ≤ word_bits * length u.old) × (length v.old ≡ length u.old) × (length x.old ≡ length u.old) × (length z.old ≡ length u.old) }
    requires order_bound { (order ≤ word_bits * length left.old) × (length left.old ≤ plane_words) × (length out.old ≡ word_length) }
    ensures word { out.new ≡ bytes_of (least_of (generators_held group.now) (letters_in group.now.sites word.now)) }
    ensures index { result.index ≡ index_back (generators_held group.now) (letters_in group.now.sites word.now) }
    ensures fixing { Says result.fixing (generators_held group.now) (letters_in group.now.sites word.now) left.new }
{
    let Lent { sites, .. } = *group;
    rotation::planes::pack_planes(word, sites, x, z);
    renumbered::gather::gather(x, site, sites, u);
    renumbered::gather::gather(z, site, sites, v);
    let stage = renumbered::refine::refine(group, shapes, order, site, place, u, v, left);
    by_stage(
        stage, group, shapes, order, site, place, word, left, u, v, x, z, out,
    )
}

// The least word of a group whose sites have other numbers, and which indices fix the word.
pub fn by_numbers(
    group: &Lent<'_>,
    shapes: &Shapes,
    order: usize,
    site: &[u16],
    place: &[u16],
    word: &[u8],
    left: &mut [u64],
    out: &mut [u8],
) -> Led
    requires tables { HoldsGroup group.now }
    requires order_value { order ≡ order_of (generators_held group.now) }
    requires axes { OnAxes group.now shapes.now }
    requires renumbered { Renumbered group.now.sites (generators_held group.now) site.now place.now }
    requires accepted_word { AcceptedWord group.now.sites word.now }
    requires order_bound { (order ≤ word_bits * length left.old) × (length left.old ≤ plane_words) × (length out.old ≡ word_length) }
    ensures word { out.new ≡ bytes_of (least_of (generators_held group.now) (letters_in group.now.sites word.now)) }
    ensures index { result.index ≡ index_back (generators_held group.now) (letters_in group.now.sites word.now) }
    ensures fixing { Says result.fixing (generators_held group.now) (letters_in group.now.sites word.now) left.new }
{
    let Lent { sites, .. } = *group;
    let words = rotation::planes::words_in_use(sites);
    let mut u = [0u64; PLANE_WORDS];
    let mut v = [0u64; PLANE_WORDS];
    let mut x = [0u64; PLANE_WORDS];
    let mut z = [0u64; PLANE_WORDS];
    in_planes(
        group,
        shapes,
        order,
        site,
        place,
        word,
        &mut u[0..words],
        &mut v[0..words],
        &mut x[0..words],
        &mut z[0..words],
        left,
        out,
    )
}
