// Refinement in the order of the sites: at each site the candidates' bits are those of the block that its number is in, moved by its place there. Planes here
// are read through the table, so that bit a is that of the site with number a.
ghost use Rattle.std.specs.Prelude.{◌≡◌, Bool, false, ℕ, ◌+◌, ◌*◌, ◌≤◌, ◌<◌, length};
ghost use Rattle.pauli_word.specs.Limits.{max_sites};
ghost use Rattle.action.specs.Index.{order_of};
ghost use Rattle.elements.specs.HeldGroup.{HoldsGroup, generators_held};
ghost use Rattle.packed.specs.Packed.{word_bits, plane_words, bit_of, Clear, letters_by};
ghost use Rattle.grid.specs.Grid.{further, OnAxes};
ghost use Rattle.grid.specs.Candidates.{Left};
ghost use Rattle.grid.specs.Stages.{is_tired, Refined, Staged};
ghost use Rattle.renumbered.specs.Renumbered.{at, Renumbered};

use grid::candidates::Round;
use grid::refine::Stage;
use packed::PLANE_WORDS;
use permutation::Lent;
use rotation::shape::Shapes;

// The candidates' bits at the site with number a.
pub fn bits_at(
    group: &Lent<'_>,
    shapes: &Shapes,
    order: usize,
    plane: &[u64],
    a: usize,
    bits: &mut [u64],
)
    requires tables { HoldsGroup group.now }
    requires order_value { order ≡ order_of (generators_held group.now) }
    requires axes { OnAxes group.now shapes.now }
    requires a_lt_max_sites { (a < max_sites) × (order ≤ word_bits * length bits.old) × (length bits.old ≤ plane_words) }
    ensures bits { (k : ℕ) → k < order → bit_of bits.new k ≡ bit_of plane.now (further (generators_held group.now) k a) }
    ensures clear { Clear order bits.new }
{
    let Lent {
        orders,
        generators,
        ..
    } = *group;
    let h = a % order;
    grid::block::take_block(plane, a - h, order, bits);
    let back = elements::index::invert(group, h);
    let mut none = [0u64; 1];
    rotation::reach::reach_by(
        orders,
        generators,
        order,
        shapes,
        back,
        bits,
        &mut none[0..0],
    );
}

// Refines by a plane, site after site to its end; `bits` is room for the candidates' bits.
pub fn refine_plane(
    group: &Lent<'_>,
    shapes: &Shapes,
    order: usize,
    place: &[u16],
    plane: &[u64],
    bits: &mut [u64],
    left: &mut [u64],
) -> Stage
    requires tables { HoldsGroup group.now }
    requires order_value { order ≡ order_of (generators_held group.now) }
    requires axes { OnAxes group.now shapes.now }
    requires place_len { (length place.now ≡ max_sites) × ((q : ℕ) → q < group.now.sites → at place.now q < group.now.sites) }
    requires order_bound { (order ≤ word_bits * length bits.old) × (length left.old ≡ length bits.old) × (length bits.old ≤ plane_words) }
    ensures ends { is_tired result ≡ false }
    ensures left { (F : ℕ → ℕ → Bool) (t : ℕ) → Left order F t (bit_of left.old)
        → ((q k : ℕ) → q < group.now.sites → k < order → F k (t + q) ≡ bit_of plane.now (further (generators_held group.now) k (at place.now q)))
        → Refined result order F (t + group.now.sites) (bit_of left.new) }
{
    let Lent { sites, .. } = *group;
    for q in 0..sites {
        bits_at(group, shapes, order, plane, place[q] as usize, bits);
        let told = grid::candidates::strike_round(bits, left);
        if let Round::Alone(k) = told {
            return Stage::Alone(k);
        }
    }
    Stage::Through
}

// Refines by the X plane, and then by the Z plane those that it leaves; `bits` is room for the candidates' bits.
pub fn refine_planes(
    group: &Lent<'_>,
    shapes: &Shapes,
    order: usize,
    site: &[u16],
    place: &[u16],
    x: &[u64],
    z: &[u64],
    bits: &mut [u64],
    left: &mut [u64],
) -> Stage
    requires tables { HoldsGroup group.now }
    requires order_value { order ≡ order_of (generators_held group.now) }
    requires axes { OnAxes group.now shapes.now }
    requires renumbered { Renumbered group.now.sites (generators_held group.now) site.now place.now }
    requires order_bound { (order ≤ word_bits * length bits.old) × (length left.old ≡ length bits.old) × (length bits.old ≤ plane_words) }
    requires by_index { (F : ℕ → ℕ → Bool) → Left order F 0 (bit_of left.old) }
    ensures ends { is_tired result ≡ false }
    ensures left { (f g : ℕ → Bool) → ((a : ℕ) → a < group.now.sites → bit_of x.now a ≡ f (at site.now a)) → ((a : ℕ) → a < group.now.sites → bit_of z.now a ≡ g (at site.now a))
        → Staged result (generators_held group.now) (letters_by group.now.sites f g) (bit_of left.new) }
{
    let stage = refine_plane(group, shapes, order, place, x, bits, left);
    match stage {
        Stage::Alone(k) => Stage::Alone(k),
        Stage::Tired => Stage::Tired,
        Stage::Through => refine_plane(group, shapes, order, place, z, bits, left),
    }
}

// The candidates that are left of all, of a word whose planes are read through the table.
pub fn refine(
    group: &Lent<'_>,
    shapes: &Shapes,
    order: usize,
    site: &[u16],
    place: &[u16],
    x: &[u64],
    z: &[u64],
    left: &mut [u64],
) -> Stage
    requires tables { HoldsGroup group.now }
    requires order_value { order ≡ order_of (generators_held group.now) }
    requires axes { OnAxes group.now shapes.now }
    requires renumbered { Renumbered group.now.sites (generators_held group.now) site.now place.now }
    requires order_bound { (order ≤ word_bits * length left.old) × (length left.old ≤ plane_words) }
    ensures ends { is_tired result ≡ false }
    ensures left { (f g : ℕ → Bool) → ((a : ℕ) → a < group.now.sites → bit_of x.now a ≡ f (at site.now a)) → ((a : ℕ) → a < group.now.sites → bit_of z.now a ≡ g (at site.now a))
        → Staged result (generators_held group.now) (letters_by group.now.sites f g) (bit_of left.new) }
{
    packed::shift::fill_run(0, order, left);
    let m = left.len();
    let mut bits = [0u64; PLANE_WORDS];
    refine_planes(
        group,
        shapes,
        order,
        site,
        place,
        x,
        z,
        &mut bits[0..m],
        left,
    )
}
