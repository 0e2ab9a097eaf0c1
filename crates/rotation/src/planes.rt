// Words in planes of machine words, moved by rotations inside blocks.
ghost use Rattle.std.specs.Prelude.{◌≡◌, ℕ, ◌+◌, ◌*◌, ◌%◌, ◌≤◌, ◌<◌, length, get_or};
ghost use Rattle.action.specs.Orbit.{move as moveBy};
ghost use Rattle.packed.specs.Packed.{word_bits, plane_words, letters_at, keep_at, Mask};
ghost use Rattle.pauli_word.specs.Bytes.{AcceptedWord, letters_in, bytes_of};
ghost use Rattle.pauli_word.specs.Calls.{order_of_words};
ghost use Rattle.pauli_word.specs.Limits.{max_sites, word_length};
ghost use Rattle.permutation.specs.Limits.{max_generators};
ghost use Rattle.rotation.specs.Rotation.{rotation, Blocks, Planes, Masks};

use packed::{PLANE_WORDS, WORD_BITS};
use pauli_word::{PLANE_BYTES, WORD_BYTES};
use permutation::MAX_GENERATORS;
use std::cmp::Ordering;

// The machine words of a mask for each generator.
pub const MASK_WORDS: usize = MAX_GENERATORS * PLANE_WORDS;

// The machine words of a plane that so many sites use.
pub fn words_in_use(sites: usize) -> usize
    requires { sites ≤ max_sites }
    ensures { (sites ≤ word_bits * result) × (result ≤ plane_words) }
{
    (sites + WORD_BITS - 1) / WORD_BITS
}

// Packs a word's bytes into its X plane and its Z plane.
pub fn pack_planes(word: &[u8], sites: usize, x: &mut [u64], z: &mut [u64])
    requires accepted_word { AcceptedWord sites word.now }
    requires x_len_bound { (length x.old ≤ plane_words) × (sites ≤ word_bits * length x.old) × (length z.old ≡ length x.old) }
    ensures planes { Planes sites (length x.old) x.new z.new }
    ensures letters { letters_at sites x.new z.new ≡ letters_in sites word.now }
{
    packed::words::pack(&word[0..PLANE_BYTES], x);
    packed::words::pack(&word[PLANE_BYTES..WORD_BYTES], z);
}

// Stores the bytes of the word that an X plane and a Z plane hold.
pub fn put_planes(x: &[u64], z: &[u64], sites: usize, word: &mut [u8])
    requires planes { Planes sites (length x.now) x.now z.now }
    requires word_len { length word.old ≡ word_length }
    ensures { word.new ≡ bytes_of (letters_at sites x.now z.now) }
{
    packed::words::unpack(x, &mut word[0..PLANE_BYTES]);
    packed::words::unpack(z, &mut word[PLANE_BYTES..WORD_BYTES]);
}

// The bytes of the word that an X plane and a Z plane hold.
pub fn unpack_planes(x: &[u64], z: &[u64], sites: usize) -> [u8; WORD_BYTES]
    requires { Planes sites (length x.now) x.now z.now }
    ensures { result ≡ bytes_of (letters_at sites x.now z.now) }
{
    let mut word = [0u8; WORD_BYTES];
    put_planes(x, z, sites, &mut word);
    word
}

// A word moved by the rotation by a stride inside blocks, whose mask is at hand: its X plane and, where there is one, its Z plane.
pub fn turn(x: &mut [u64], z: &mut [u64], keep: &[u64], stride: usize, block: usize, sites: usize)
    requires planes_2 { Planes sites (length keep.now) x.old z.old }
    requires blocks { Blocks sites stride block }
    requires mask { Mask (keep_at stride block sites) keep.now }
    ensures planes { Planes sites (length keep.now) x.new z.new }
    ensures letters { letters_at sites x.new z.new ≡ moveBy (rotation sites stride block) (letters_at sites x.old z.old) }
{
    packed::shift::rotate_kept(x, keep, stride, block, sites);
    if 0 < z.len() {
        packed::shift::rotate_kept(z, keep, stride, block, sites);
    }
}

// A word moved by the rotation by a stride inside blocks, whose mask is made first.
pub fn turn_by(x: &mut [u64], z: &mut [u64], stride: usize, block: usize, sites: usize)
    requires planes_2 { Planes sites (length x.old) x.old z.old }
    requires blocks { Blocks sites stride block }
    ensures planes { Planes sites (length x.old) x.new z.new }
    ensures letters { letters_at sites x.new z.new ≡ moveBy (rotation sites stride block) (letters_at sites x.old z.old) }
{
    let m = x.len();
    let mut keep = [0u64; PLANE_WORDS];
    packed::shift::keep_mask(stride, block, sites, &mut keep[0..m]);
    turn(x, z, &keep[0..m], stride, block, sites);
}

// How a word stands to another: by their X planes, and where these are the same by their Z planes.
pub fn order_of(x: &[u64], z: &[u64], xs: &[u64], zs: &[u64], sites: usize) -> Ordering
    requires planes { Planes sites (length xs.now) x.now z.now }
    requires planes_2 { Planes sites (length xs.now) xs.now zs.now }
    requires z_len { length z.now ≡ length zs.now }
    ensures { result ≡ order_of_words (letters_at sites x.now z.now) (letters_at sites xs.now zs.now) }
{
    match packed::words::compare(x, xs) {
        Ordering::Less => Ordering::Less,
        Ordering::Greater => Ordering::Greater,
        Ordering::Equal => packed::words::compare(z, zs),
    }
}

// A mask for each generator, m machine words each, one after the other.
pub fn fill_masks(
    strides: &[usize],
    rests: &[usize],
    generators: usize,
    sites: usize,
    m: usize,
    masks: &mut [u64],
)
    requires strides_len { (length strides.now ≡ max_generators) × (length rests.now ≡ max_generators) × (generators ≤ max_generators) }
    requires sites_bound { (sites ≤ word_bits * m) × (m ≤ max_sites) × (max_generators * m ≤ length masks.old) }
    requires by_index { (g : ℕ) → g < generators → (0 < get_or strides.now g 0 + get_or rests.now g 0) × (sites % (get_or strides.now g 0 + get_or rests.now g 0) ≡ 0) × (get_or strides.now g 0 + get_or rests.now g 0 ≤ max_sites + max_sites) }
    ensures { Masks generators sites m strides.now rests.now masks.new }
{
    for g in 0..generators {
        let start = m * g;
        let end = start + m;
        let stride = strides[g];
        let block = stride + rests[g];
        packed::shift::keep_mask(stride, block, sites, &mut masks[start..end]);
    }
}
