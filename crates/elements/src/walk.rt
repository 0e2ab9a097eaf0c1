// The walk over a word's orbit. Whoever calls a function here owes its `requires`.
ghost use Rattle.std.specs.Prelude.{◌≡◌, ◌*◌, ◌<◌, cond};
ghost use Rattle.pauli_word.specs.Word.{less};
ghost use Rattle.pauli_word.specs.Bytes.{AcceptedWord, letters_in, bytes_of};
ghost use Rattle.action.specs.Permutation.{Permutes};
ghost use Rattle.action.specs.Index.{order_of, digits};
ghost use Rattle.action.specs.Orbit.{move as moveBy, stepped, least, forward};
ghost use Rattle.elements.specs.HeldGroup.{HoldsGroup, generators_held};

use crate::letters;
use pauli_word::{MAX_SITES, WORD_BYTES};
use permutation::Lent;
use std::cmp::Ordering;

// The least word of an orbit, and the smallest index that reaches it.
#[derive(Clone, Copy)]
pub struct LeastWord {
    pub word: [u8; WORD_BYTES],
    pub index: usize,
}

// A word moved by one generator: site q's letter goes to site perm[q].
pub fn apply_generator(perm: &[u16], sites: usize, word: &[u8]) -> [u8; WORD_BYTES]
    requires permutes { Permutes sites perm.now }
    requires accepted_word { AcceptedWord sites word.now }
    ensures { result ≡ bytes_of (moveBy perm.now (letters_in sites word.now)) }
{
    let mut from = [0u8; MAX_SITES];
    let mut to = [0u8; MAX_SITES];
    letters::moved(perm, sites, word, &mut from[0..sites], &mut to[0..sites])
}

// The walk's step from the entry of an index to the next: moved by generator 0, and by each next one while the digits below roll over.
pub fn advance(group: &Lent<'_>, index: usize, word: &mut [u8])
    requires tables { HoldsGroup group.now }
    requires accepted_word { AcceptedWord group.now.sites word.old }
    ensures { word.new ≡ bytes_of (stepped (generators_held group.now) (digits (generators_held group.now) index) (letters_in group.now.sites word.old)) }
{
    let Lent {
        targets,
        orders,
        generators,
        sites,
    } = *group;
    let mut rest = index;
    for g in 0..generators {
        let start = MAX_SITES * g;
        let end = start + sites;
        let moved = apply_generator(&targets[start..end], sites, word);
        pauli_word::inner::copy(&moved, word);
        let o = orders[g] as usize;
        if rest % o + 1 != o {
            return;
        }
        rest = rest / o;
    }
}

// Puts the word at hand, entry i of the walk, in the place of the best so far if it is less; the index of the one that leads then.
pub fn take_less(here: &[u8], sites: usize, i: usize, best: &mut [u8], index: usize) -> usize
    requires accepted_word { AcceptedWord sites here.now }
    requires accepted_word_2 { AcceptedWord sites best.old }
    ensures index { result ≡ cond (less (letters_in sites here.now) (letters_in sites best.old)) i index }
    ensures best { best.new ≡ cond (less (letters_in sites here.now) (letters_in sites best.old)) here.now best.old }
{
    let Ordering::Less = pauli_word::inner::compare_bytes(here, best) else {
        return index;
    };
    pauli_word::inner::copy(here, best);
    i
}

// The least word of the orbit, by walking it whole, and the smallest index that reaches it.
pub fn canonicalize_odometer(group: &Lent<'_>, order: usize, word: &[u8]) -> LeastWord
    requires tables { HoldsGroup group.now }
    requires accepted_word { AcceptedWord group.now.sites word.now }
    requires order_value { order ≡ order_of (generators_held group.now) }
    ensures word { result.word ≡ bytes_of (least (generators_held group.now) (letters_in group.now.sites word.now)) }
    ensures index { result.index ≡ forward (generators_held group.now) (letters_in group.now.sites word.now) }
{
    let Lent { sites, .. } = *group;
    let mut here = [0u8; WORD_BYTES];
    pauli_word::inner::copy(word, &mut here);
    let mut best = [0u8; WORD_BYTES];
    pauli_word::inner::copy(word, &mut best);
    let mut index = 0;
    for i in 0..order {
        index = take_less(&here, sites, i, &mut best, index);
        advance(group, i, &mut here);
    }
    LeastWord { word: best, index }
}
