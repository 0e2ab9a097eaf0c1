// The least word of one word's orbit. Whoever calls a function here owes its `requires`.
ghost use Rattle.std.specs.Prelude.{◌≡◌, ◌≤◌};
ghost use Rattle.pauli_word.specs.Bytes.{letters_in, bytes_of, AcceptedWord};
ghost use Rattle.action.specs.Index.{order_of};
ghost use Rattle.action.specs.Orbit.{least, index_back};
ghost use Rattle.elements.specs.HeldGroup.{HoldsGroup, generators_held};
ghost use Rattle.packed.specs.Packed.{plane_words};
ghost use Rattle.paths.specs.Paths.{words_of, Takes};

use crate::by_parts;
use elements::walk::LeastWord;
use packed::PLANE_WORDS;
use paths::plan::Path;
use pauli_word::WORD_BYTES;
use permutation::{Lent, MAX_GENERATORS};
use rotation::planes::MASK_WORDS;
use rotation::shape::Shapes;

// The least word of an accepted word's orbit for a path that is found: part by part where that is of use, and else by the path.
pub fn least_on(
    path: Path,
    group: &Lent<'_>,
    shapes: &Shapes,
    masks: &[u64],
    order: usize,
    word: &[u8],
) -> LeastWord
    requires tables { HoldsGroup group.now }
    requires taken { Takes path group.now order shapes.now masks.now × (words_of path ≤ plane_words) }
    requires order_value { order ≡ order_of (generators_held group.now) }
    requires accepted_word { AcceptedWord group.now.sites word.now }
    ensures word { result.word ≡ bytes_of (least (generators_held group.now) (letters_in group.now.sites word.now)) }
    ensures index { result.index ≡ index_back (generators_held group.now) (letters_in group.now.sites word.now) }
{
    let mut least = [0u8; WORD_BYTES];
    let mut back = [0usize; 1];
    if by_parts::word_taken(path, order, group, word, &mut least, &mut back) {
        return LeastWord {
            word: least,
            index: back[0],
        };
    }
    let room = path.words();
    let mut left = [0u64; PLANE_WORDS];
    let led = paths::least::least_into(
        path,
        group,
        shapes,
        masks,
        order,
        word,
        &mut left[0..room],
        &mut least,
    );
    LeastWord {
        word: least,
        index: led.index,
    }
}

// The least word of an accepted word's orbit, and the index that leads from it back.
pub fn least_of(group: &Lent<'_>, word: &[u8]) -> LeastWord
    requires tables { HoldsGroup group.now }
    requires accepted_word { AcceptedWord group.now.sites word.now }
    ensures word { result.word ≡ bytes_of (least (generators_held group.now) (letters_in group.now.sites word.now)) }
    ensures index { result.index ≡ index_back (generators_held group.now) (letters_in group.now.sites word.now) }
{
    let order = elements::index::order(group);
    let mut shapes = Shapes::new();
    let mut masks = [0u64; MASK_WORDS];
    let path = paths::plan::find_path(group, order, &mut shapes, &mut masks);
    least_on(path, group, &shapes, &masks, order, word)
}
