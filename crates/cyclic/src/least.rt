// The least word by least rotations, for a group of one generator that rotates sites by one inside blocks: from a word's bytes to its least word's bytes.
// Whoever calls a function here owes its `requires`.
ghost use Rattle.std.specs.Prelude.{◌≡◌, ℕ, ◌-◌, ◌*◌, ◌%◌, ◌<◌, ◌≤◌, List, eqb, ℤ, length, get_or};
ghost use Rattle.pauli_word.specs.Limits.{max_sites};
ghost use Rattle.pauli_word.specs.Bytes.{AcceptedWord, letters_in, bytes_of};
ghost use Rattle.permutation.specs.Generators.{row_at};
ghost use Rattle.action.specs.Orbit.{least, forward, fixes, orbit_size};
ghost use Rattle.action.specs.Sector.{trivial, keeps};
ghost use Rattle.elements.specs.HeldGroup.{HoldsGroup, generators_held};
ghost use Rattle.packed.specs.Packed.{word_bits, plane_words};
ghost use Rattle.rotation.specs.Rotation.{Blocks, Rotates};
ghost use Rattle.cyclic.specs.Cyclic.{Found};

use crate::Turn;
use packed::{PLANE_WORDS, WORD_BITS};
use pauli_word::WORD_BYTES;
use permutation::Lent;
use rotation::planes;

// The least word of an orbit, the smallest index that reaches it, and the step: the indices that fix the word are its multiples.
#[derive(Clone, Copy)]
pub struct LeastTurn {
    pub word: [u8; WORD_BYTES],
    pub index: usize,
    pub step: usize,
}

// What the start of turns is short of their step: the smallest index that reaches the least word, if the turns give it.
fn short_of(turn: Turn) -> usize
    requires { turn.start < turn.step }
    ensures { result ≡ (turn.step - turn.start) % turn.step }
{
    if turn.start == 0 {
        0
    } else {
        turn.step - turn.start
    }
}

// The least word of a word that is turned inside blocks, with two planes to work in.
fn least_within(word: &[u8], sites: usize, block: usize, x: &mut [u64], z: &mut [u64]) -> LeastTurn
    requires accepted_word { AcceptedWord sites word.now × Blocks sites 1 block × (sites ≤ max_sites) }
    requires x_len_bound { (length x.old ≤ plane_words) × (sites ≤ word_bits * length x.old) × (length z.old ≡ length x.old) }
    ensures { Found sites block (letters_in sites word.now) result.word result.index result.step }
{
    planes::pack_planes(word, sites, x, z);
    let turn = crate::least_turns(x, z, block, sites);
    let index = short_of(turn);
    planes::turn_by(x, z, index, block, sites);
    LeastTurn {
        word: planes::unpack_planes(x, z, sites),
        index,
        step: turn.step,
    }
}

// The least word of a word's orbit, the smallest index that reaches it, and the step.
pub fn canonicalize_block_cyclic(group: &Lent<'_>, block: usize, word: &[u8]) -> LeastTurn
    requires tables { HoldsGroup group.now }
    requires one { group.now.generators ≡ 1 }
    requires rotates { Rotates group.now.sites 1 block (row_at group.now.sites group.now.targets.now 0) × (get_or group.now.orders.now 0 0 ≡ block) }
    requires accepted_word { AcceptedWord group.now.sites word.now }
    ensures word { result.word ≡ bytes_of (least (generators_held group.now) (letters_in group.now.sites word.now)) }
    ensures index { result.index ≡ forward (generators_held group.now) (letters_in group.now.sites word.now) }
    ensures positive { 0 < result.step }
    ensures fixing { (i : ℕ) → i < block → fixes (generators_held group.now) (letters_in group.now.sites word.now) i ≡ eqb (i % result.step) 0 }
    ensures size { orbit_size (generators_held group.now) (letters_in group.now.sites word.now) ≡ result.step }
    ensures kept { (ks : List ℤ) → keeps (generators_held group.now) ks (letters_in group.now.sites word.now) ≡ trivial (generators_held group.now) ks result.step }
{
    let Lent { sites, .. } = *group;
    let m = (sites + WORD_BITS - 1) / WORD_BITS;
    let mut x = [0u64; PLANE_WORDS];
    let mut z = [0u64; PLANE_WORDS];
    least_within(word, sites, block, &mut x[0..m], &mut z[0..m])
}
