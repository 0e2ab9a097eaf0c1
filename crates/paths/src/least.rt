// The least word of an orbit, by the path that the group takes.
ghost use Rattle.std.specs.Prelude.{◌≡◌, ℕ, ◌*◌, ◌≤◌, eqb, length, get_or, List};
ghost use Rattle.pauli_word.specs.Limits.{word_length};
ghost use Rattle.pauli_word.specs.Bytes.{AcceptedWord, letters_in, bytes_of};
ghost use Rattle.action.specs.Index.{order_of};
ghost use Rattle.action.specs.Permutation.{Generator};
ghost use Rattle.action.specs.Orbit.{least as least_of, index_back, fixing};
ghost use Rattle.pauli_word.specs.Word.{Word};
ghost use Rattle.elements.specs.HeldGroup.{HoldsGroup, generators_held};
ghost use Rattle.packed.specs.Packed.{word_bits, plane_words, bit_of, letters_at};
ghost use Rattle.permutation.specs.Generators.{row_at};
ghost use Rattle.rotation.specs.Rotation.{Rotates, Planes, Shaped};
ghost use Rattle.grid.specs.Grid.{StepsBy};
ghost use Rattle.grid.specs.Candidates.{Among, Leading};
ghost use Rattle.grid.specs.Stages.{Staged};
ghost use Rattle.paths.specs.Paths.{words_of, Says, Takes};

use crate::plan::Path;
use grid::refine::Stage;
use packed::PLANE_WORDS;
use permutation::Lent;
use rotation::shape::Shapes;

// Which indices fix a word, as far as a path tells.
#[derive(Clone, Copy)]
pub enum Fixing {
    // 0 alone.
    Free,
    // The multiples of a step.
    Multiples(usize),
    // The differences of the candidates that lead.
    Leading,
    // More than one.
    Many,
}

// The index that leads from the least word of an orbit back to the word, and which indices fix the word.
#[derive(Clone, Copy)]
pub struct Led {
    pub index: usize,
    pub fixing: Fixing,
}

// By the number of indices that reach the least word.
pub fn by_ties(ties: usize) -> Fixing
    ensures { (gs : List Generator) (w : Word) (left : List ℕ) → ties ≡ length (fixing gs w) → Says result gs w left }
{
    if ties == 1 {
        Fixing::Free
    } else {
        Fixing::Many
    }
}

// The least word by masks, into a list.
pub fn by_masks(group: &Lent<'_>, shapes: &Shapes, order: usize, word: &[u8], out: &mut [u8]) -> Led
    requires tables { HoldsGroup group.now }
    requires shapes { Shaped group.now shapes.now }
    requires accepted_word { AcceptedWord group.now.sites word.now }
    requires order_value { order ≡ order_of (generators_held group.now) }
    requires out_len { length out.old ≡ word_length }
    ensures word { out.new ≡ bytes_of (least_of (generators_held group.now) (letters_in group.now.sites word.now)) }
    ensures index { result.index ≡ index_back (generators_held group.now) (letters_in group.now.sites word.now) }
    ensures fixing { (left : List ℕ) → Says result.fixing (generators_held group.now) (letters_in group.now.sites word.now) left }
{
    let found = rotation::least::least_by_masks(group, shapes, order, word);
    let least = found.word;
    pauli_word::inner::copy(&least, out);
    Led {
        index: elements::index::invert(group, found.index),
        fixing: by_ties(found.ties),
    }
}

// The least word a byte a site, into a list.
pub fn by_letters(group: &Lent<'_>, order: usize, word: &[u8], out: &mut [u8]) -> Led
    requires tables { HoldsGroup group.now }
    requires accepted_word { AcceptedWord group.now.sites word.now }
    requires order_value { order ≡ order_of (generators_held group.now) }
    requires out_len { length out.old ≡ word_length }
    ensures word { out.new ≡ bytes_of (least_of (generators_held group.now) (letters_in group.now.sites word.now)) }
    ensures index { result.index ≡ index_back (generators_held group.now) (letters_in group.now.sites word.now) }
    ensures fixing { (left : List ℕ) → Says result.fixing (generators_held group.now) (letters_in group.now.sites word.now) left }
{
    let found = lettered::walk::least_by_letters(group, order, word);
    let least = found.word;
    pauli_word::inner::copy(&least, out);
    Led {
        index: elements::index::invert(group, found.index),
        fixing: by_ties(found.ties),
    }
}

// The least word of a word that one candidate alone leads to, in the planes x and z, where it moves, and into a list.
pub fn by_one(
    group: &Lent<'_>,
    shapes: &Shapes,
    k: usize,
    left: &[u64],
    x: &mut [u64],
    z: &mut [u64],
    out: &mut [u8],
) -> Led
    requires tables { HoldsGroup group.now }
    requires shapes { Shaped group.now shapes.now }
    requires planes { Planes group.now.sites (length x.old) x.old z.old }
    requires leading { Leading (generators_held group.now) (letters_at group.now.sites x.old z.old) (bit_of left.now) × ((j : ℕ) → bit_of left.now j ≡ eqb j k) }
    requires out_len { length out.old ≡ word_length }
    ensures word { out.new ≡ bytes_of (least_of (generators_held group.now) (letters_at group.now.sites x.old z.old)) }
    ensures index { result.index ≡ index_back (generators_held group.now) (letters_at group.now.sites x.old z.old) }
    ensures fixing { Says result.fixing (generators_held group.now) (letters_at group.now.sites x.old z.old) left.now }
{
    let Lent { sites, .. } = *group;
    let forward = elements::index::invert(group, k);
    rotation::reach::reach(group, shapes, forward, x, z);
    rotation::planes::put_planes(x, z, sites, out);
    Led {
        index: k,
        fixing: Fixing::Free,
    }
}

// The least word of a word by the candidates that lead, in the planes x and z, where it moves, and into a list.
pub fn by_leading(
    group: &Lent<'_>,
    shapes: &Shapes,
    order: usize,
    left: &[u64],
    x: &mut [u64],
    z: &mut [u64],
    out: &mut [u8],
) -> Led
    requires tables { HoldsGroup group.now }
    requires shapes { Shaped group.now shapes.now }
    requires order_value { order ≡ order_of (generators_held group.now) }
    requires planes { Planes group.now.sites (length x.old) x.old z.old }
    requires leading { Leading (generators_held group.now) (letters_at group.now.sites x.old z.old) (bit_of left.now) }
    requires out_len { length out.old ≡ word_length }
    ensures word { out.new ≡ bytes_of (least_of (generators_held group.now) (letters_at group.now.sites x.old z.old)) }
    ensures index { result.index ≡ index_back (generators_held group.now) (letters_at group.now.sites x.old z.old) }
    ensures fixing { Says result.fixing (generators_held group.now) (letters_at group.now.sites x.old z.old) left.now }
{
    let Lent { sites, .. } = *group;
    let forward = grid::settle::forward_of(group, order, left);
    rotation::reach::reach(group, shapes, forward, x, z);
    rotation::planes::put_planes(x, z, sites, out);
    Led {
        index: elements::index::invert(group, forward),
        fixing: Fixing::Leading,
    }
}

// The least word by the least rotation, of a group of one generator that shifts by 1 inside blocks, into a list.
pub fn by_turns(group: &Lent<'_>, block: usize, word: &[u8], out: &mut [u8]) -> Led
    requires tables { HoldsGroup group.now }
    requires one { group.now.generators ≡ 1 }
    requires rotates { Rotates group.now.sites 1 block (row_at group.now.sites group.now.targets.now 0) × (get_or group.now.orders.now 0 0 ≡ block) }
    requires accepted_word { AcceptedWord group.now.sites word.now }
    requires out_len { length out.old ≡ word_length }
    ensures word { out.new ≡ bytes_of (least_of (generators_held group.now) (letters_in group.now.sites word.now)) }
    ensures index { result.index ≡ index_back (generators_held group.now) (letters_in group.now.sites word.now) }
    ensures fixing { (left : List ℕ) → Says result.fixing (generators_held group.now) (letters_in group.now.sites word.now) left }
{
    let turn = cyclic::least::canonicalize_block_cyclic(group, block, word);
    let least = turn.word;
    pauli_word::inner::copy(&least, out);
    Led {
        index: elements::index::invert(group, turn.index),
        fixing: Fixing::Multiples(turn.step),
    }
}

// The least word where refining stopped: by the least rotation where one generator shifts by 1 inside blocks, else by moving the word to each candidate left.
pub fn when_tired(
    group: &Lent<'_>,
    shapes: &Shapes,
    order: usize,
    word: &[u8],
    x: &mut [u64],
    z: &mut [u64],
    left: &mut [u64],
    out: &mut [u8],
) -> Led
    requires tables { HoldsGroup group.now }
    requires shapes { Shaped group.now shapes.now }
    requires order_value { order ≡ order_of (generators_held group.now) }
    requires accepted_word { AcceptedWord group.now.sites word.now × ((letters_at group.now.sites x.old z.old) ≡ letters_in group.now.sites word.now) }
    requires planes { Planes group.now.sites (length x.old) x.old z.old × (length z.old ≡ length x.old) }
    requires order_bound { (order ≤ word_bits * length left.old) × (length left.old ≤ plane_words) }
    requires among { Among (generators_held group.now) (letters_at group.now.sites x.old z.old) (bit_of left.old) }
    requires out_len { length out.old ≡ word_length }
    ensures word { out.new ≡ bytes_of (least_of (generators_held group.now) (letters_in group.now.sites word.now)) }
    ensures index { result.index ≡ index_back (generators_held group.now) (letters_in group.now.sites word.now) }
    ensures fixing { Says result.fixing (generators_held group.now) (letters_in group.now.sites word.now) left.new }
{
    let Lent { generators, .. } = *group;
    let Shapes { strides, rests } = *shapes;
    if generators == 1 {
        let block = 1 + rests[0];
        if strides[0] == 1 && order == block {
            return by_turns(group, block, word, out);
        }
    }
    grid::settle::settle(group, shapes, order, x, z, left);
    by_leading(group, shapes, order, left, x, z, out)
}

// The least word where more than one candidate may be left, by where refining stopped.
pub fn by_many(
    stage: Stage,
    group: &Lent<'_>,
    shapes: &Shapes,
    order: usize,
    word: &[u8],
    x: &mut [u64],
    z: &mut [u64],
    left: &mut [u64],
    out: &mut [u8],
) -> Led
    requires tables { HoldsGroup group.now }
    requires shapes { Shaped group.now shapes.now }
    requires order_value { order ≡ order_of (generators_held group.now) }
    requires accepted_word { AcceptedWord group.now.sites word.now × ((letters_at group.now.sites x.old z.old) ≡ letters_in group.now.sites word.now) }
    requires planes { Planes group.now.sites (length x.old) x.old z.old × (length z.old ≡ length x.old) }
    requires order_bound { (order ≤ word_bits * length left.old) × (length left.old ≤ plane_words) }
    requires staged { Staged stage (generators_held group.now) (letters_at group.now.sites x.old z.old) (bit_of left.old) }
    requires out_len { length out.old ≡ word_length }
    ensures word { out.new ≡ bytes_of (least_of (generators_held group.now) (letters_in group.now.sites word.now)) }
    ensures index { result.index ≡ index_back (generators_held group.now) (letters_in group.now.sites word.now) }
    ensures fixing { Says result.fixing (generators_held group.now) (letters_in group.now.sites word.now) left.new }
{
    if stage.is_tired() {
        return when_tired(group, shapes, order, word, x, z, left, out);
    }
    by_leading(group, shapes, order, left, x, z, out)
}

// The least word by where refining stopped.
pub fn by_stage(
    stage: Stage,
    group: &Lent<'_>,
    shapes: &Shapes,
    order: usize,
    word: &[u8],
    x: &mut [u64],
    z: &mut [u64],
    left: &mut [u64],
    out: &mut [u8],
) -> Led
    requires tables { HoldsGroup group.now }
    requires shapes { Shaped group.now shapes.now }
    requires order_value { order ≡ order_of (generators_held group.now) }
    requires accepted_word { AcceptedWord group.now.sites word.now × ((letters_at group.now.sites x.old z.old) ≡ letters_in group.now.sites word.now) }
    requires planes { Planes group.now.sites (length x.old) x.old z.old × (length z.old ≡ length x.old) }
    requires order_bound { (order ≤ word_bits * length left.old) × (length left.old ≤ plane_words) }
    requires staged { Staged stage (generators_held group.now) (letters_at group.now.sites x.old z.old) (bit_of left.old) }
    requires out_len { length out.old ≡ word_length }
    ensures word { out.new ≡ bytes_of (least_of (generators_held group.now) (letters_in group.now.sites word.now)) }
    ensures index { result.index ≡ index_back (generators_held group.now) (letters_in group.now.sites word.now) }
    ensures fixing { Says result.fixing (generators_held group.now) (letters_in group.now.sites word.now) left.new }
{
    let Stage::Alone(k) = stage else {
        return by_many(stage, group, shapes, order, word, x, z, left, out);
    };
    by_one(group, shapes, k, left, x, z, out)
}

// The least word on a grid, with planes to work in.
pub fn in_planes(
    group: &Lent<'_>,
    shapes: &Shapes,
    masks: &[u64],
    order: usize,
    word: &[u8],
    x: &mut [u64],
    z: &mut [u64],
    left: &mut [u64],
    out: &mut [u8],
) -> Led
    requires tables { HoldsGroup group.now }
    requires shapes { Shaped group.now shapes.now }
    requires order_value { order ≡ order_of (generators_held group.now) }
    requires steps { StepsBy group.now order (length left.old) shapes.now masks.now }
    requires accepted_word { AcceptedWord group.now.sites word.now }
    requires x_len_bound { (length x.old ≤ plane_words) × (group.now.sites ≤ word_bits * length x.old) × (length z.old ≡ length x.old) }
    requires out_len { length out.old ≡ word_length }
    ensures word { out.new ≡ bytes_of (least_of (generators_held group.now) (letters_in group.now.sites word.now)) }
    ensures index { result.index ≡ index_back (generators_held group.now) (letters_in group.now.sites word.now) }
    ensures fixing { Says result.fixing (generators_held group.now) (letters_in group.now.sites word.now) left.new }
{
    let Lent { sites, .. } = *group;
    rotation::planes::pack_planes(word, sites, x, z);
    let stage = grid::refine::refine(group, shapes, masks, order, x, z, left);
    by_stage(stage, group, shapes, order, word, x, z, left, out)
}

// The least word on a grid.
pub fn by_grid(
    group: &Lent<'_>,
    shapes: &Shapes,
    masks: &[u64],
    order: usize,
    word: &[u8],
    left: &mut [u64],
    out: &mut [u8],
) -> Led
    requires tables { HoldsGroup group.now }
    requires shapes { Shaped group.now shapes.now }
    requires order_value { order ≡ order_of (generators_held group.now) }
    requires steps { StepsBy group.now order (length left.old) shapes.now masks.now }
    requires accepted_word { AcceptedWord group.now.sites word.now }
    requires out_len { length out.old ≡ word_length }
    ensures word { out.new ≡ bytes_of (least_of (generators_held group.now) (letters_in group.now.sites word.now)) }
    ensures index { result.index ≡ index_back (generators_held group.now) (letters_in group.now.sites word.now) }
    ensures fixing { Says result.fixing (generators_held group.now) (letters_in group.now.sites word.now) left.new }
{
    let Lent { sites, .. } = *group;
    let words = rotation::planes::words_in_use(sites);
    let mut x = [0u64; PLANE_WORDS];
    let mut z = [0u64; PLANE_WORDS];
    in_planes(
        group,
        shapes,
        masks,
        order,
        word,
        &mut x[0..words],
        &mut z[0..words],
        left,
        out,
    )
}

// The least word of a word's orbit, into a list, the index that leads back, and which indices fix the word.
pub fn least_into(
    path: Path,
    group: &Lent<'_>,
    shapes: &Shapes,
    masks: &[u64],
    order: usize,
    word: &[u8],
    left: &mut [u64],
    out: &mut [u8],
) -> Led
    requires tables { HoldsGroup group.now }
    requires taken { Takes path group.now order shapes.now masks.now }
    requires order_value { order ≡ order_of (generators_held group.now) }
    requires accepted_word { AcceptedWord group.now.sites word.now }
    requires left_len { (length left.old ≡ words_of path) × (length out.old ≡ word_length) }
    ensures word { out.new ≡ bytes_of (least_of (generators_held group.now) (letters_in group.now.sites word.now)) }
    ensures index { result.index ≡ index_back (generators_held group.now) (letters_in group.now.sites word.now) }
    ensures fixing { Says result.fixing (generators_held group.now) (letters_in group.now.sites word.now) left.new }
{
    match path {
        Path::Grid(_) => by_grid(group, shapes, masks, order, word, left, out),
        Path::Masks => by_masks(group, shapes, order, word, out),
        Path::Letters => by_letters(group, order, word, out),
    }
}
