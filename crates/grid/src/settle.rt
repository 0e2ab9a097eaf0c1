// Candidates that bits do not tell apart soon: the word is moved to each that is left, and the words are compared. Two that give the same word differ by an
// index that fixes the word, and with it most of the others that give it are told without a move. And what the candidates that lead say.
ghost use Rattle.std.specs.Prelude.{◌≡◌, true, false, ◌||◌, ℕ, ◌+◌, ◌*◌, ◌≤◌, ◌<◌, eqb, length};
ghost use Rattle.pauli_word.specs.Word.{Word};
ghost use Rattle.pauli_word.specs.Calls.{order_of_words};
ghost use Rattle.action.specs.Index.{order_of, add as addOf, inverse};
ghost use Rattle.action.specs.Orbit.{forward};
ghost use Rattle.elements.specs.HeldGroup.{HoldsGroup, generators_held};
ghost use Rattle.packed.specs.Packed.{word_bits, plane_words, bit_of, letters_at};
ghost use Rattle.rotation.specs.Rotation.{Planes, led, Shaped};
ghost use Rattle.grid.specs.Candidates.{candidate, Among, Leading};
ghost use Rattle.grid.specs.Weighing.{found as foundBy, shifted, Weighed, Knows};

use crate::candidates;
use packed::{PLANE_WORDS, WORD_BITS};
use permutation::Lent;
use rotation::shape::Shapes;
use std::cmp::Ordering;

// What the candidates weighed so far say of the next ones: one that gives the best word, and an index that fixes the word.
#[derive(Clone, Copy)]
pub struct Known {
    pub lead: usize,
    pub shift: usize,
}

// Puts k into a set.
pub fn put(k: usize, set: &mut [u64])
    requires { k < word_bits * length set.old }
    ensures { (j : ℕ) → bit_of set.new j ≡ (eqb j k || bit_of set.old j) }
{
    let i = k / WORD_BITS;
    let bit = candidates::alone_word(k, i);
    set[i] = bit | set[i];
}

// Makes k the only one in a set.
pub fn put_alone(k: usize, set: &mut [u64])
    requires { k < word_bits * length set.old }
    ensures { (j : ℕ) → bit_of set.new j ≡ eqb j k }
{
    packed::shift::fill_run(0, 0, set);
    put(k, set);
}

// The word that candidate k gives, in planes of its own.
pub fn give(
    group: &Lent<'_>,
    shapes: &Shapes,
    x: &[u64],
    z: &[u64],
    k: usize,
    u: &mut [u64],
    v: &mut [u64],
)
    requires tables { HoldsGroup group.now }
    requires shapes { Shaped group.now shapes.now }
    requires planes_2 { Planes group.now.sites (length x.now) x.now z.now }
    requires u_len { (length u.old ≡ length x.now) × (length v.old ≡ length z.now) }
    ensures planes { Planes group.now.sites (length x.now) u.new v.new }
    ensures letters { letters_at group.now.sites u.new v.new ≡ candidate (generators_held group.now) (letters_at group.now.sites x.now z.now) k }
{
    packed::words::copy(x, u);
    packed::words::copy(z, v);
    let index = elements::index::invert(group, k);
    rotation::reach::reach(group, shapes, index, u, v);
}

// Compares the word at hand, which candidate k gives, with the best so far: if it is less, it becomes the best and k alone is found; if it is the same, k is
// found too. How the two compare.
pub fn weigh(
    u: &[u64],
    v: &[u64],
    sites: usize,
    k: usize,
    xs: &mut [u64],
    zs: &mut [u64],
    found: &mut [u64],
) -> Ordering
    requires v_len { (length v.now ≡ length zs.old) × (k < word_bits * length found.old) }
    requires planes_2 { Planes sites (length xs.old) u.now v.now }
    requires planes_3 { Planes sites (length xs.old) xs.old zs.old }
    ensures planes { Planes sites (length xs.old) xs.new zs.new }
    ensures letters { letters_at sites xs.new zs.new ≡ led (order_of_words (letters_at sites u.now v.now) (letters_at sites xs.old zs.old)) (letters_at sites u.now v.now) (letters_at sites xs.old zs.old) }
    ensures told { result ≡ order_of_words (letters_at sites u.now v.now) (letters_at sites xs.old zs.old) }
    ensures found { (j : ℕ) → bit_of found.new j ≡ foundBy (order_of_words (letters_at sites u.now v.now) (letters_at sites xs.old zs.old)) (eqb j k) (bit_of found.old j) }
{
    match rotation::planes::order_of(u, v, xs, zs, sites) {
        Ordering::Less => {
            packed::words::copy(u, xs);
            packed::words::copy(v, zs);
            put_alone(k, found);
            Ordering::Less
        }
        Ordering::Equal => {
            put(k, found);
            Ordering::Equal
        }
        Ordering::Greater => Ordering::Greater,
    }
}

// Whether candidate k is known to give the best word without a move: it leads, or one that is found is a shift away.
pub fn is_known(group: &Lent<'_>, k: usize, known: Known, found: &[u64]) -> bool
    requires { HoldsGroup group.now }
    ensures { result ≡ (eqb k known.lead || bit_of found.now (addOf (generators_held group.now) k known.shift)) }
{
    let lead = known.lead;
    if k == lead {
        return true;
    }
    let shift = known.shift;
    let index = elements::index::add(group, k, shift);
    candidates::holds(found, index)
}

// What is known after candidate k was weighed: one that gives a lesser word leads, and the difference of two that give the same fixes the word.
pub fn learn(group: &Lent<'_>, told: Ordering, k: usize, known: Known) -> Known
    requires { HoldsGroup group.now }
    ensures lead { result.lead ≡ led told k known.lead }
    ensures shift { result.shift ≡ shifted told (addOf (generators_held group.now) known.lead (inverse (generators_held group.now) k)) known.shift }
{
    let lead = known.lead;
    match told {
        Ordering::Less => Known {
            lead: k,
            shift: known.shift,
        },
        Ordering::Equal => {
            let back = elements::index::invert(group, k);
            let shift = elements::index::add(group, lead, back);
            Known { lead, shift }
        }
        Ordering::Greater => known,
    }
}

// Weighs candidate k if it is left, without a move where it is known to give the best word. u and v are room for the word that it gives; xs and zs hold the
// best so far, found those that give it.
pub fn weigh_next(
    group: &Lent<'_>,
    shapes: &Shapes,
    x: &[u64],
    z: &[u64],
    left: &[u64],
    k: usize,
    known: Known,
    u: &mut [u64],
    v: &mut [u64],
    xs: &mut [u64],
    zs: &mut [u64],
    found: &mut [u64],
) -> Known
    requires tables { HoldsGroup group.now }
    requires shapes { Shaped group.now shapes.now }
    requires planes_2 { Planes group.now.sites (length x.now) x.now z.now × Planes group.now.sites (length x.now) xs.old zs.old }
    requires u_len { (length u.old ≡ length x.now) × (length v.old ≡ length z.now) × (length zs.old ≡ length z.now) }
    requires k_bound { k < word_bits * length found.old }
    requires weighed_2 { Weighed (generators_held group.now) (letters_at group.now.sites x.now z.now) (bit_of left.now) k (letters_at group.now.sites xs.old zs.old) (bit_of found.old) }
    requires knows { Knows (generators_held group.now) (letters_at group.now.sites x.now z.now) (letters_at group.now.sites xs.old zs.old) known.lead known.shift }
    ensures planes { Planes group.now.sites (length x.now) xs.new zs.new }
    ensures weighed { Weighed (generators_held group.now) (letters_at group.now.sites x.now z.now) (bit_of left.now) (k + 1) (letters_at group.now.sites xs.new zs.new) (bit_of found.new) }
    ensures known { Knows (generators_held group.now) (letters_at group.now.sites x.now z.now) (letters_at group.now.sites xs.new zs.new) result.lead result.shift }
{
    let Lent { sites, .. } = *group;
    if !candidates::holds(left, k) {
        return known;
    }
    if is_known(group, k, known, found) {
        put(k, found);
        return known;
    }
    give(group, shapes, x, z, k, u, v);
    let told = weigh(u, v, sites, k, xs, zs, found);
    learn(group, told, k, known)
}

// Weighs all candidates that are left, from 0 on. The best word before is the one that candidate first gives.
pub fn weigh_all(
    group: &Lent<'_>,
    shapes: &Shapes,
    order: usize,
    x: &[u64],
    z: &[u64],
    left: &[u64],
    first: usize,
    u: &mut [u64],
    v: &mut [u64],
    xs: &mut [u64],
    zs: &mut [u64],
    found: &mut [u64],
)
    requires tables { HoldsGroup group.now }
    requires shapes { Shaped group.now shapes.now }
    requires planes { Planes group.now.sites (length x.now) x.now z.now × Planes group.now.sites (length x.now) xs.old zs.old }
    requires u_len { (length u.old ≡ length x.now) × (length v.old ≡ length z.now) × (length zs.old ≡ length z.now) }
    requires order_bound { order ≤ word_bits * length found.old }
    requires weighed { Weighed (generators_held group.now) (letters_at group.now.sites x.now z.now) (bit_of left.now) 0 (letters_at group.now.sites xs.old zs.old) (bit_of found.old) }
    requires first_value { candidate (generators_held group.now) (letters_at group.now.sites x.now z.now) first ≡ letters_at group.now.sites xs.old zs.old }
    ensures { Weighed (generators_held group.now) (letters_at group.now.sites x.now z.now) (bit_of left.now) order (letters_at group.now.sites xs.new zs.new) (bit_of found.new) }
{
    let mut known = Known {
        lead: first,
        shift: 0,
    };
    for k in 0..order {
        known = weigh_next(group, shapes, x, z, left, k, known, u, v, xs, zs, found);
    }
}

// Of the candidates left, those that give the least word, with room for two words and a set.
pub fn settle_in(
    group: &Lent<'_>,
    shapes: &Shapes,
    order: usize,
    x: &[u64],
    z: &[u64],
    left: &mut [u64],
    u: &mut [u64],
    v: &mut [u64],
    xs: &mut [u64],
    zs: &mut [u64],
    found: &mut [u64],
)
    requires tables { HoldsGroup group.now }
    requires order_value { order ≡ order_of (generators_held group.now) }
    requires shapes { Shaped group.now shapes.now }
    requires planes { Planes group.now.sites (length x.now) x.now z.now }
    requires u_len { (length u.old ≡ length x.now) × (length v.old ≡ length z.now) }
    requires xs_len { (length xs.old ≡ length x.now) × (length zs.old ≡ length z.now) × (length found.old ≡ length left.old) }
    requires order_bound { (order ≤ word_bits * length left.old) × (length left.old ≤ plane_words) }
    requires among { Among (generators_held group.now) (letters_at group.now.sites x.now z.now) (bit_of left.old) }
    ensures { Leading (generators_held group.now) (letters_at group.now.sites x.now z.now) (bit_of left.new) }
{
    let k = candidates::first_of(left);
    give(group, shapes, x, z, k, xs, zs);
    packed::shift::fill_run(0, 0, found);
    weigh_all(group, shapes, order, x, z, left, k, u, v, xs, zs, found);
    packed::words::copy(found, left);
}

// Of the candidates left, those that give the least word.
pub fn settle(
    group: &Lent<'_>,
    shapes: &Shapes,
    order: usize,
    x: &[u64],
    z: &[u64],
    left: &mut [u64],
)
    requires tables { HoldsGroup group.now }
    requires order_value { order ≡ order_of (generators_held group.now) }
    requires shapes { Shaped group.now shapes.now }
    requires planes { Planes group.now.sites (length x.now) x.now z.now × (length z.now ≡ length x.now) }
    requires order_bound { (order ≤ word_bits * length left.old) × (length left.old ≤ plane_words) }
    requires among { Among (generators_held group.now) (letters_at group.now.sites x.now z.now) (bit_of left.old) }
    ensures { Leading (generators_held group.now) (letters_at group.now.sites x.now z.now) (bit_of left.new) }
{
    let m = x.len();
    let s = left.len();
    let mut here_x = [0u64; PLANE_WORDS];
    let mut here_z = [0u64; PLANE_WORDS];
    let mut best_x = [0u64; PLANE_WORDS];
    let mut best_z = [0u64; PLANE_WORDS];
    let mut found = [0u64; PLANE_WORDS];
    settle_in(
        group,
        shapes,
        order,
        x,
        z,
        left,
        &mut here_x[0..m],
        &mut here_z[0..m],
        &mut best_x[0..m],
        &mut best_z[0..m],
        &mut found[0..s],
    );
}

// The smallest index that reaches the least word: the least inverse of a candidate that leads.
pub fn forward_of(group: &Lent<'_>, order: usize, left: &[u64]) -> usize
    requires tables { HoldsGroup group.now }
    requires order_value { order ≡ order_of (generators_held group.now) }
    ensures { (w : Word) → length w ≡ group.now.sites → Leading (generators_held group.now) w (bit_of left.now) → result ≡ forward (generators_held group.now) w }
{
    let mut best = order;
    for k in 0..order {
        if best == 0 {
            return 0;
        }
        if candidates::holds(left, k) {
            let index = elements::index::invert(group, k);
            best = packed::shift::smaller(index, best);
        }
    }
    best
}
