// The walk over a word's orbit, on codes. Whoever calls a function here owes its `requires`.
ghost use Rattle.std.specs.Prelude.{◌≡◌, ◌≤◌, length};
ghost use Rattle.pauli_word.specs.Word.{Word};
ghost use Rattle.pauli_word.specs.Bytes.{AcceptedWord, letters_in, bytes_of};
ghost use Rattle.pauli_word.specs.Calls.{order_of_words};
ghost use Rattle.action.specs.Index.{order_of, digits};
ghost use Rattle.action.specs.Orbit.{stepped, least, forward, fixing};
ghost use Rattle.permutation.specs.Limits.{max_order};
ghost use Rattle.elements.specs.HeldGroup.{HoldsGroup, generators_held};
ghost use Rattle.elements.specs.Letters.{codes};
ghost use Rattle.rotation.specs.Rotation.{led, tied};

use crate::order;
use elements::letters;
use pauli_word::{MAX_SITES, WORD_BYTES};
use permutation::Lent;
use std::cmp::Ordering;

// The least word of an orbit, the smallest index that reaches it, and how many indices do.
#[derive(Clone, Copy)]
pub struct LeastLetters {
    pub word: [u8; WORD_BYTES],
    pub index: usize,
    pub ties: usize,
}

// The smallest index that reaches the least word so far, and how many do.
#[derive(Clone, Copy)]
pub struct Lead {
    pub index: usize,
    pub ties: usize,
}

// The walk's step from the entry of an index to the next, on its codes; spare is room for as many.
pub fn advance(group: &Lent<'_>, index: usize, here: &mut [u8], spare: &mut [u8])
    requires tables { HoldsGroup group.now }
    requires here_len { length here.old ≡ group.now.sites }
    requires spare_len { length spare.old ≡ group.now.sites }
    ensures { (w : Word) → here.old ≡ codes w → here.new ≡ codes (stepped (generators_held group.now) (digits (generators_held group.now) index) w) }
{
    let Lent {
        targets,
        orders,
        generators,
        sites,
    } = *group;
    let mut rest = index;
    for g in 0..generators {
        let start = MAX_SITES * g;
        let end = start + sites;
        letters::move_letters(&targets[start..end], here, spare);
        pauli_word::inner::copy(spare, here);
        let o = orders[g] as usize;
        if rest % o + 1 != o {
            return;
        }
        rest = rest / o;
    }
}

// Puts the codes at hand, entry i of the walk, in the place of the best so far if their word is less; who leads then, and how many tie.
pub fn take_codes(here: &[u8], i: usize, best: &mut [u8], index: usize, ties: usize) -> Lead
    requires here_len { length here.now ≡ length best.old }
    requires ties_le_max_order { ties ≤ max_order }
    ensures index { (v w : Word) → here.now ≡ codes v → best.old ≡ codes w → result.index ≡ led (order_of_words v w) i index }
    ensures ties { (v w : Word) → here.now ≡ codes v → best.old ≡ codes w → result.ties ≡ tied (order_of_words v w) ties }
    ensures best { (v w : Word) → here.now ≡ codes v → best.old ≡ codes w → best.new ≡ codes (led (order_of_words v w) v w) }
{
    match order::compare(here, best) {
        Ordering::Less => {
            pauli_word::inner::copy(here, best);
            Lead { index: i, ties: 1 }
        }
        Ordering::Equal => Lead {
            index,
            ties: ties + 1,
        },
        Ordering::Greater => Lead { index, ties },
    }
}

// As `least_by_letters`, in room for the codes of as many sites: of the entry at hand, of the best so far, and to spare.
pub fn least_in_room(
    group: &Lent<'_>,
    order: usize,
    word: &[u8],
    here: &mut [u8],
    best: &mut [u8],
    spare: &mut [u8],
) -> LeastLetters
    requires tables { HoldsGroup group.now }
    requires accepted_word { AcceptedWord group.now.sites word.now }
    requires order_value { order ≡ order_of (generators_held group.now) }
    requires here_len { length here.old ≡ group.now.sites }
    requires best_len { length best.old ≡ group.now.sites }
    requires spare_len { length spare.old ≡ group.now.sites }
    ensures word { result.word ≡ bytes_of (least (generators_held group.now) (letters_in group.now.sites word.now)) }
    ensures index { result.index ≡ forward (generators_held group.now) (letters_in group.now.sites word.now) }
    ensures ties { result.ties ≡ length (fixing (generators_held group.now) (letters_in group.now.sites word.now)) }
{
    let Lent { sites, .. } = *group;
    letters::unpack(word, sites, here);
    pauli_word::inner::copy(here, best);
    let mut index = 0;
    let mut ties = 0;
    for i in 0..order {
        let lead = take_codes(here, i, best, index, ties);
        index = lead.index;
        ties = lead.ties;
        advance(group, i, here, spare);
    }
    LeastLetters {
        word: letters::pack(best),
        index,
        ties,
    }
}

// The least word of the orbit, by walking it whole, the smallest index that reaches it, and how many indices do: as many as fix the word.
pub fn least_by_letters(group: &Lent<'_>, order: usize, word: &[u8]) -> LeastLetters
    requires tables { HoldsGroup group.now }
    requires accepted_word { AcceptedWord group.now.sites word.now }
    requires order_value { order ≡ order_of (generators_held group.now) }
    ensures word { result.word ≡ bytes_of (least (generators_held group.now) (letters_in group.now.sites word.now)) }
    ensures index { result.index ≡ forward (generators_held group.now) (letters_in group.now.sites word.now) }
    ensures ties { result.ties ≡ length (fixing (generators_held group.now) (letters_in group.now.sites word.now)) }
{
    let Lent { sites, .. } = *group;
    let mut here = [0u8; MAX_SITES];
    let mut best = [0u8; MAX_SITES];
    let mut spare = [0u8; MAX_SITES];
    least_in_room(
        group,
        order,
        word,
        &mut here[0..sites],
        &mut best[0..sites],
        &mut spare[0..sites],
    )
}
