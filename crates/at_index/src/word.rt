// The word that an index makes of a word, by what the group's generators are. Whoever calls a function here owes its `requires`.
ghost use Rattle.std.specs.Prelude.{◌≡◌, ◌*◌, ◌≤◌, length};
ghost use Rattle.pauli_word.specs.Bytes.{AcceptedWord, letters_in, bytes_of};
ghost use Rattle.action.specs.Orbit.{reach};
ghost use Rattle.elements.specs.HeldGroup.{HoldsGroup, generators_held};
ghost use Rattle.packed.specs.Packed.{word_bits, plane_words};
ghost use Rattle.rotation.specs.Rotation.{Shaped};

use crate::powers;
use elements::letters;
use packed::PLANE_WORDS;
use pauli_word::{MAX_SITES, WORD_BYTES};
use permutation::{Lent, MAX_GENERATORS};
use rotation::shape::Shapes;

// By rotations, one a generator.
pub fn by_rotations(
    group: &Lent<'_>,
    shapes: &Shapes,
    index: usize,
    word: &[u8],
) -> [u8; WORD_BYTES]
    requires tables { HoldsGroup group.now }
    requires shapes { Shaped group.now shapes.now }
    requires accepted_word { AcceptedWord group.now.sites word.now }
    ensures { result ≡ bytes_of (reach (generators_held group.now) index (letters_in group.now.sites word.now)) }
{
    let Lent { sites, .. } = *group;
    let m = rotation::planes::words_in_use(sites);
    let mut x = [0u64; PLANE_WORDS];
    let mut z = [0u64; PLANE_WORDS];
    turned(group, shapes, index, word, &mut x[0..m], &mut z[0..m])
}

// The same in room for the planes.
pub fn turned(
    group: &Lent<'_>,
    shapes: &Shapes,
    index: usize,
    word: &[u8],
    x: &mut [u64],
    z: &mut [u64],
) -> [u8; WORD_BYTES]
    requires tables { HoldsGroup group.now }
    requires shapes { Shaped group.now shapes.now }
    requires accepted_word { AcceptedWord group.now.sites word.now }
    requires sites_bound { (group.now.sites ≤ word_bits * length x.old) × (length x.old ≤ plane_words) × (length z.old ≡ length x.old) }
    ensures { result ≡ bytes_of (reach (generators_held group.now) index (letters_in group.now.sites word.now)) }
{
    let Lent { sites, .. } = *group;
    rotation::planes::pack_planes(word, sites, x, z);
    rotation::reach::reach(group, shapes, index, x, z);
    rotation::planes::unpack_planes(x, z, sites)
}

// A byte a site, by powers of each generator.
pub fn by_powers(group: &Lent<'_>, index: usize, word: &[u8]) -> [u8; WORD_BYTES]
    requires tables { HoldsGroup group.now }
    requires accepted_word { AcceptedWord group.now.sites word.now }
    ensures { result ≡ bytes_of (reach (generators_held group.now) index (letters_in group.now.sites word.now)) }
{
    let Lent { sites, .. } = *group;
    let mut perm = [0u16; MAX_SITES];
    let mut room = [0u16; MAX_SITES];
    let mut here = [0u8; MAX_SITES];
    let mut spare = [0u8; MAX_SITES];
    moved(
        group,
        index,
        word,
        &mut perm[0..sites],
        &mut room[0..sites],
        &mut here[0..sites],
        &mut spare[0..sites],
    )
}

// The same in room for targets and codes.
pub fn moved(
    group: &Lent<'_>,
    index: usize,
    word: &[u8],
    perm: &mut [u16],
    room: &mut [u16],
    here: &mut [u8],
    spare: &mut [u8],
) -> [u8; WORD_BYTES]
    requires tables { HoldsGroup group.now }
    requires accepted_word { AcceptedWord group.now.sites word.now }
    requires perm_len { length perm.old ≡ group.now.sites }
    requires room_len { length room.old ≡ group.now.sites }
    requires here_len { length here.old ≡ group.now.sites }
    requires spare_len { length spare.old ≡ group.now.sites }
    ensures { result ≡ bytes_of (reach (generators_held group.now) index (letters_in group.now.sites word.now)) }
{
    let Lent { sites, .. } = *group;
    letters::unpack(word, sites, here);
    powers::reach_codes(group, index, perm, room, here, spare);
    letters::pack(here)
}

// The word that an index makes of a word.
pub fn word_at(group: &Lent<'_>, index: usize, word: &[u8]) -> [u8; WORD_BYTES]
    requires tables { HoldsGroup group.now }
    requires accepted_word { AcceptedWord group.now.sites word.now }
    ensures { result ≡ bytes_of (reach (generators_held group.now) index (letters_in group.now.sites word.now)) }
{
    let Some(shapes) = rotation::shape::find_shapes(group) else {
        return by_powers(group, index, word);
    };
    by_rotations(group, &shapes, index, word)
}
