// What modes make of a word, by its numbers.
ghost use Rattle.std.specs.Prelude.{◌≡◌};
ghost use Rattle.decisions.specs.Placements.{index_in, size_in};

use pauli_word::WORD_BYTES;

// What modes make of a word, by numbers.
#[derive(Clone, Copy)]
pub enum Placement {
    // They keep it: the index that leads from the least word to the word, and the orbit size.
    Kept(usize, usize),
    // They drop it: the smallest index that fixes it with a numerator other than 0.
    Dropped(usize),
}

impl Placement {
    // The index of either, also where a caller has only learnt that the word is not kept.
    pub fn index(self) -> usize
        ensures { result ≡ index_in self }
    {
        match self {
            Placement::Kept(index, _) => index,
            Placement::Dropped(index) => index,
        }
    }

    // The orbit size; 0 where the word is dropped.
    pub fn size(self) -> usize
        ensures { result ≡ size_in self }
    {
        match self {
            Placement::Kept(_, size) => size,
            Placement::Dropped(_) => 0,
        }
    }
}

// The least word beside it; zeros where the word is dropped.
#[derive(Clone, Copy)]
pub struct Placed {
    pub answer: Placement,
    pub word: [u8; WORD_BYTES],
}
