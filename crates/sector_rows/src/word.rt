// The decision for one word, by the way that its group takes. Whoever calls a function here owes its `requires`.
ghost use Rattle.std.specs.Prelude.{◌≡◌, cond, ◌≤◌, eqb, length};
ghost use Rattle.pauli_word.specs.Limits.{word_length};
ghost use Rattle.pauli_word.specs.Bytes.{AcceptedWord, letters_in};
ghost use Rattle.action.specs.Index.{order_of};
ghost use Rattle.elements.specs.HeldGroup.{HoldsGroup, generators_held};
ghost use Rattle.packed.specs.Packed.{plane_words};
ghost use Rattle.paths.specs.Paths.{words_of, Takes};
ghost use Rattle.decisions.specs.Decisions.{decision, row_word};
ghost use Rattle.decisions.specs.Placements.{placement_of};

use crate::by_parts;
use decisions::placement::{Placed, Placement};
use packed::PLANE_WORDS;
use paths::plan::Path;
use pauli_word::WORD_BYTES;
use permutation::Lent;
use rotation::planes::MASK_WORDS;
use rotation::shape::Shapes;

// A decision by an index and an orbit size, which is 0 beside a dropped word.
fn told(index: usize, size: usize) -> Placement
    ensures { result ≡ cond (eqb size 0) (Placement.Dropped index) (Placement.Kept index size) }
{
    if size == 0 {
        Placement::Dropped(index)
    } else {
        Placement::Kept(index, size)
    }
}

// The decision for a path that is found: part by part where that is of use, and else by the path. The least word goes into a list, or zeros where the word is
// dropped.
fn placed_on(
    path: Path,
    group: &Lent<'_>,
    shapes: &Shapes,
    masks: &[u64],
    order: usize,
    modes: &[i32],
    word: &[u8],
    out: &mut [u8],
) -> Placement
    requires tables { HoldsGroup group.now }
    requires taken { Takes path group.now order shapes.now masks.now × (words_of path ≤ plane_words) }
    requires order_value { order ≡ order_of (generators_held group.now) }
    requires modes_len { length modes.now ≡ group.now.generators }
    requires accepted_word { AcceptedWord group.now.sites word.now × (length out.old ≡ word_length) }
    ensures answer { result ≡ placement_of (decision (generators_held group.now) modes.now (letters_in group.now.sites word.now)) }
    ensures word { out.new ≡ row_word (decision (generators_held group.now) modes.now (letters_in group.now.sites word.now)) }
{
    let mut back = [0usize; 1];
    let mut orbit = [0usize; 1];
    if by_parts::word_taken(path, order, group, modes, word, out, &mut back, &mut orbit) {
        return told(back[0], orbit[0]);
    }
    let modulus = elements::index::phase_modulus(group);
    let room = path.words();
    let mut left = [0u64; PLANE_WORDS];
    decisions::stabilizer::placed_into(
        path,
        group,
        shapes,
        masks,
        order,
        modulus,
        modes,
        word,
        &mut left[0..room],
        out,
    )
}

// The decision for the group that tables hold, an accepted word and a mode for each generator.
pub fn placement_of(group: &Lent<'_>, word: &[u8], modes: &[i32]) -> Placed
    requires tables { HoldsGroup group.now }
    requires accepted_word { AcceptedWord group.now.sites word.now }
    requires modes_len { length modes.now ≡ group.now.generators }
    ensures answer { result.answer ≡ placement_of (decision (generators_held group.now) modes.now (letters_in group.now.sites word.now)) }
    ensures word { result.word ≡ row_word (decision (generators_held group.now) modes.now (letters_in group.now.sites word.now)) }
{
    let order = elements::index::order(group);
    let mut shapes = Shapes::new();
    let mut masks = [0u64; MASK_WORDS];
    let path = paths::plan::find_path(group, order, &mut shapes, &mut masks);
    let mut least = [0u8; WORD_BYTES];
    let answer = placed_on(path, group, &shapes, &masks, order, modes, word, &mut least);
    Placed {
        answer,
        word: least,
    }
}
