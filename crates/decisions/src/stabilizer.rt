// A sector's decision, by what the path that a group takes says of the indices that fix a word, or by a traversal. Whoever calls a function here owes its `requires`.
ghost use Rattle.std.specs.Prelude.{◌≡◌, ◌*◌, ◌≤◌, ◌<◌, length, IfSome};
ghost use Rattle.pauli_word.specs.Limits.{word_length};
ghost use Rattle.pauli_word.specs.Word.{Word};
ghost use Rattle.pauli_word.specs.Bytes.{AcceptedWord, letters_in, bytes_of};
ghost use Rattle.action.specs.Index.{order_of};
ghost use Rattle.action.specs.Orbit.{reach, least, index_back};
ghost use Rattle.action.specs.Sector.{modulus as modulusOf};
ghost use Rattle.elements.specs.HeldGroup.{HoldsGroup, generators_held};
ghost use Rattle.packed.specs.Packed.{word_bits, plane_words, bit_of};
ghost use Rattle.grid.specs.Candidates.{Leading};
ghost use Rattle.paths.specs.Paths.{words_of, ByStep, Says, Takes, ReadyFor};
ghost use Rattle.row_lists.specs.Rows.{no_word};
ghost use Rattle.decisions.specs.Placements.{test_of, placement_of};
ghost use Rattle.decisions.specs.Decisions.{decision, row_word};

use crate::placement::{Placed, Placement};
use crate::{leading, phase};
use paths::least::Fixing;
use paths::plan::Path;
use pauli_word::WORD_BYTES;
use permutation::Lent;
use rotation::planes::MASK_WORDS;
use rotation::shape::Shapes;
use std::cmp::Ordering;

// What an index does to a word under modes.
#[derive(Clone, Copy)]
pub enum Test {
    // It reaches another word.
    Moves,
    // It fixes the word, with numerator 0.
    Fixes,
    // It fixes the word, with another numerator: the modes drop the word.
    Breaks,
}

// What an index does to a word, by the word that it reaches.
pub fn tested(
    group: &Lent<'_>,
    modulus: usize,
    modes: &[i32],
    index: usize,
    here: &[u8],
    word: &[u8],
) -> Test
    requires tables { HoldsGroup group.now }
    requires modulus_value { modulus ≡ modulusOf (generators_held group.now) }
    requires modes_len { length modes.now ≡ group.now.generators }
    requires accepted_word { AcceptedWord group.now.sites word.now }
    requires here_value { here.now ≡ bytes_of (reach (generators_held group.now) index (letters_in group.now.sites word.now)) }
    ensures { result ≡ test_of (generators_held group.now) modes.now (letters_in group.now.sites word.now) index }
{
    let Ordering::Equal = pauli_word::inner::compare_bytes(here, word) else {
        return Test::Moves;
    };
    if phase::trivial(group, modulus, modes, index) {
        Test::Fixes
    } else {
        Test::Breaks
    }
}

// A dropped word: the index that drops it.
pub fn dropped(index: usize) -> Placed
    ensures { (result.answer ≡ Placement.Dropped index) × (result.word ≡ no_word) }
{
    Placed {
        answer: Placement::Dropped(index),
        word: [0u8; WORD_BYTES],
    }
}

// One traversal of the group, with phase modulus m: it stops at the first fixing index with a numerator other than 0, which it gives, and else gives
// the least word, the index that leads back from it and the orbit size.
pub fn canonicalize_with_stabilizer(
    group: &Lent<'_>,
    order: usize,
    m: usize,
    modes: &[i32],
    word: &[u8],
    words: usize,
    shapes: &Option<Shapes>,
    masks: &[u64],
) -> Placed
    requires tables { HoldsGroup group.now }
    requires order_value { order ≡ order_of (generators_held group.now) }
    requires m_value { m ≡ modulusOf (generators_held group.now) }
    requires modes_len { length modes.now ≡ group.now.generators }
    requires accepted_word { AcceptedWord group.now.sites word.now }
    requires sites_bound { (group.now.sites ≤ word_bits * words) × (words ≤ plane_words) }
    requires ready { IfSome shapes.now (λ s. ReadyFor words group.now s masks.now) }
    ensures answer { result.answer ≡ placement_of (decision (generators_held group.now) modes.now (letters_in group.now.sites word.now)) }
    ensures word { result.word ≡ row_word (decision (generators_held group.now) modes.now (letters_in group.now.sites word.now)) }
{
    let Lent { sites, .. } = *group;
    let mut here = [0u8; WORD_BYTES];
    pauli_word::inner::copy(word, &mut here);
    let mut best = [0u8; WORD_BYTES];
    pauli_word::inner::copy(word, &mut best);
    let mut index = 0;
    let mut fixing = 0;
    for i in 0..order {
        match tested(group, m, modes, i, &here, word) {
            Test::Breaks => return dropped(i),
            Test::Fixes => fixing += 1,
            Test::Moves => {}
        }
        index = elements::walk::take_less(&here, sites, i, &mut best, index);
        paths::moves::advance(group, words, shapes, masks, i, &mut here);
    }
    let back = elements::index::invert(group, index);
    Placed {
        answer: Placement::Kept(back, order / fixing),
        word: best,
    }
}

// The traversal, by masks where every generator rotates inside blocks.
pub fn traverse(group: &Lent<'_>, order: usize, m: usize, modes: &[i32], word: &[u8]) -> Placed
    requires tables { HoldsGroup group.now }
    requires order_value { order ≡ order_of (generators_held group.now) }
    requires m_value { m ≡ modulusOf (generators_held group.now) }
    requires modes_len { length modes.now ≡ group.now.generators }
    requires accepted_word { AcceptedWord group.now.sites word.now }
    ensures answer { result.answer ≡ placement_of (decision (generators_held group.now) modes.now (letters_in group.now.sites word.now)) }
    ensures word { result.word ≡ row_word (decision (generators_held group.now) modes.now (letters_in group.now.sites word.now)) }
{
    let Lent { sites, .. } = *group;
    let words = rotation::planes::words_in_use(sites);
    let mut masks = [0u64; MASK_WORDS];
    let shapes = paths::moves::find_masks(group, words, &mut masks);
    canonicalize_with_stabilizer(group, order, m, modes, word, words, &shapes, &masks)
}

// Zeros over a list: the word that the index drops has none.
pub fn cleared(index: usize, out: &mut [u8]) -> Placement
    requires { length out.old ≡ word_length }
    ensures answer { result ≡ Placement.Dropped index }
    ensures word { out.new ≡ no_word }
{
    row_lists::zeros::bytes_from(out, 0);
    Placement::Dropped(index)
}

// Where the multiples of a step fix a word, it is kept just if the step has numerator 0, and else dropped by the step. `out` holds the least word, to which
// `back` is the index back.
pub fn placed_by_step(
    group: &Lent<'_>,
    m: usize,
    modes: &[i32],
    step: usize,
    back: usize,
    out: &mut [u8],
) -> Placement
    requires tables { HoldsGroup group.now }
    requires m_value { m ≡ modulusOf (generators_held group.now) }
    requires modes_len { length modes.now ≡ group.now.generators }
    requires out_len { length out.old ≡ word_length }
    ensures answer { (w : Word) → ByStep step (generators_held group.now) w
        → back ≡ index_back (generators_held group.now) w
        → result ≡ placement_of (decision (generators_held group.now) modes.now w) }
    ensures word { (w : Word) → ByStep step (generators_held group.now) w
        → out.old ≡ bytes_of (least (generators_held group.now) w)
        → out.new ≡ row_word (decision (generators_held group.now) modes.now w) }
{
    if phase::trivial(group, m, modes, step) {
        return Placement::Kept(back, step);
    }
    cleared(step, out)
}

// What modes make of a word by the candidates that lead on a grid. `out` holds the least word, to which `back` is the index back.
pub fn placed_by_set(
    group: &Lent<'_>,
    order: usize,
    m: usize,
    modes: &[i32],
    left: &[u64],
    back: usize,
    out: &mut [u8],
) -> Placement
    requires tables { HoldsGroup group.now }
    requires order_value { order ≡ order_of (generators_held group.now) }
    requires m_value { m ≡ modulusOf (generators_held group.now) }
    requires modes_len { length modes.now ≡ group.now.generators }
    requires out_len { length out.old ≡ word_length }
    ensures answer { (w : Word) → length w ≡ group.now.sites
        → Leading (generators_held group.now) w (bit_of left.now)
        → back ≡ index_back (generators_held group.now) w
        → result ≡ placement_of (decision (generators_held group.now) modes.now w) }
    ensures word { (w : Word) → length w ≡ group.now.sites
        → Leading (generators_held group.now) w (bit_of left.now)
        → back ≡ index_back (generators_held group.now) w
        → out.old ≡ bytes_of (least (generators_held group.now) w)
        → out.new ≡ row_word (decision (generators_held group.now) modes.now w) }
{
    let answer = leading::placed_by_leading(group, order, m, modes, left, back);
    match answer {
        Placement::Kept(index, size) => Placement::Kept(index, size),
        Placement::Dropped(index) => cleared(index, out),
    }
}

// The traversal, with its word into a list.
pub fn placed_by_traversal(
    group: &Lent<'_>,
    order: usize,
    m: usize,
    modes: &[i32],
    word: &[u8],
    out: &mut [u8],
) -> Placement
    requires tables { HoldsGroup group.now }
    requires order_value { order ≡ order_of (generators_held group.now) }
    requires m_value { m ≡ modulusOf (generators_held group.now) }
    requires modes_len { length modes.now ≡ group.now.generators }
    requires accepted_word { AcceptedWord group.now.sites word.now }
    requires out_len { length out.old ≡ word_length }
    ensures answer { result ≡ placement_of (decision (generators_held group.now) modes.now (letters_in group.now.sites word.now)) }
    ensures word { out.new ≡ row_word (decision (generators_held group.now) modes.now (letters_in group.now.sites word.now)) }
{
    let placed = traverse(group, order, m, modes, word);
    let answer = placed.answer;
    let found = placed.word;
    pauli_word::inner::copy(&found, out);
    answer
}

// The decision, by what is known of the indices that fix the word: a word that index 0 alone fixes is kept, and where nothing is known the traversal decides.
// `out` holds the least word, to which `back` is the index back.
pub fn placed_by(
    fixing: Fixing,
    back: usize,
    group: &Lent<'_>,
    order: usize,
    m: usize,
    modes: &[i32],
    word: &[u8],
    left: &[u64],
    out: &mut [u8],
) -> Placement
    requires tables { HoldsGroup group.now }
    requires order_value { order ≡ order_of (generators_held group.now) }
    requires m_value { m ≡ modulusOf (generators_held group.now) }
    requires modes_len { length modes.now ≡ group.now.generators }
    requires accepted_word { AcceptedWord group.now.sites word.now }
    requires out_value { out.old ≡ bytes_of (least (generators_held group.now) (letters_in group.now.sites word.now)) }
    requires back_value { back ≡ index_back (generators_held group.now) (letters_in group.now.sites word.now) }
    requires says { Says fixing (generators_held group.now) (letters_in group.now.sites word.now) left.now }
    ensures answer { result ≡ placement_of (decision (generators_held group.now) modes.now (letters_in group.now.sites word.now)) }
    ensures word { out.new ≡ row_word (decision (generators_held group.now) modes.now (letters_in group.now.sites word.now)) }
{
    match fixing {
        Fixing::Free => Placement::Kept(back, order),
        Fixing::Multiples(step) => placed_by_step(group, m, modes, step, back, out),
        Fixing::Leading => placed_by_set(group, order, m, modes, left, back, out),
        Fixing::Many => placed_by_traversal(group, order, m, modes, word, out),
    }
}

// The decision, by the path that the group takes, and the least word into a list, or zeros where the word is dropped.
pub fn placed_into(
    path: Path,
    group: &Lent<'_>,
    shapes: &Shapes,
    masks: &[u64],
    order: usize,
    m: usize,
    modes: &[i32],
    word: &[u8],
    left: &mut [u64],
    out: &mut [u8],
) -> Placement
    requires tables { HoldsGroup group.now }
    requires taken { Takes path group.now order shapes.now masks.now }
    requires order_value { order ≡ order_of (generators_held group.now) }
    requires m_value { m ≡ modulusOf (generators_held group.now) }
    requires modes_len { length modes.now ≡ group.now.generators }
    requires accepted_word { AcceptedWord group.now.sites word.now }
    requires left_len { (length left.old ≡ words_of path) × (length out.old ≡ word_length) }
    ensures answer { result ≡ placement_of (decision (generators_held group.now) modes.now (letters_in group.now.sites word.now)) }
    ensures word { out.new ≡ row_word (decision (generators_held group.now) modes.now (letters_in group.now.sites word.now)) }
{
    let led = paths::least::least_into(path, group, shapes, masks, order, word, left, out);
    let fixing = led.fixing;
    placed_by(fixing, led.index, group, order, m, modes, word, left, out)
}
