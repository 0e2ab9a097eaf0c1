// Words moved on from entry to entry, by masks where every generator rotates inside blocks.
ghost use Rattle.std.specs.Prelude.{◌≡◌, ◌*◌, ◌≤◌, length, IfSome};
ghost use Rattle.pauli_word.specs.Limits.{word_length};
ghost use Rattle.pauli_word.specs.Bytes.{AcceptedWord, letters_in, bytes_of};
ghost use Rattle.permutation.specs.Limits.{max_generators};
ghost use Rattle.action.specs.Index.{order_of, digits};
ghost use Rattle.action.specs.Orbit.{stepped, orbit_list};
ghost use Rattle.elements.specs.HeldGroup.{encode_all, HoldsGroup, generators_held};
ghost use Rattle.packed.specs.Packed.{word_bits, plane_words};
ghost use Rattle.paths.specs.Paths.{ReadyFor};

use packed::PLANE_WORDS;
use pauli_word::WORD_BYTES;
use permutation::Lent;
use rotation::planes::MASK_WORDS;
use rotation::shape::Shapes;

// The shapes of a group's generators where every one rotates inside blocks, and the masks then.
pub fn find_masks(group: &Lent<'_>, m: usize, masks: &mut [u64]) -> Option<Shapes>
    requires tables { HoldsGroup group.now }
    requires sites_bound { (group.now.sites ≤ word_bits * m) × (m ≤ plane_words) }
    requires masks_len { max_generators * m ≤ length masks.old }
    ensures { IfSome result (λ s. ReadyFor m group.now s masks.new) }
{
    let Lent {
        generators,
        sites,
        ..
    } = *group;
    let shapes = rotation::shape::find_shapes(group)?;
    rotation::planes::fill_masks(&shapes.strides, &shapes.rests, generators, sites, m, masks);
    Some(shapes)
}

// The walk's step from the entry of an index to the next by masks, of a stored word; x and z are room for its planes.
pub fn advance_planes(
    group: &Lent<'_>,
    shapes: &Shapes,
    masks: &[u64],
    index: usize,
    word: &mut [u8],
    x: &mut [u64],
    z: &mut [u64],
)
    requires tables { HoldsGroup group.now }
    requires ready { ReadyFor (length x.old) group.now shapes.now masks.now }
    requires sites_bound { (group.now.sites ≤ word_bits * length x.old) × (length x.old ≤ plane_words) × (length z.old ≡ length x.old) }
    requires accepted_word { AcceptedWord group.now.sites word.old }
    ensures { word.new ≡ bytes_of (stepped (generators_held group.now) (digits (generators_held group.now) index) (letters_in group.now.sites word.old)) }
{
    let Lent { sites, .. } = *group;
    let m = x.len();
    rotation::planes::pack_planes(word, sites, x, z);
    rotation::walk::advance(group, shapes, masks, m, index, x, z);
    let moved = rotation::planes::unpack_planes(x, z, sites);
    pauli_word::inner::copy(&moved, word);
}

// The walk's step from the entry of an index to the next, of a stored word.
pub fn advance(
    group: &Lent<'_>,
    m: usize,
    shapes: &Option<Shapes>,
    masks: &[u64],
    index: usize,
    word: &mut [u8],
)
    requires tables { HoldsGroup group.now }
    requires sites_bound { (group.now.sites ≤ word_bits * m) × (m ≤ plane_words) }
    requires ready { IfSome shapes.now (λ s. ReadyFor m group.now s masks.now) }
    requires accepted_word { AcceptedWord group.now.sites word.old }
    ensures { word.new ≡ bytes_of (stepped (generators_held group.now) (digits (generators_held group.now) index) (letters_in group.now.sites word.old)) }
{
    let Some(shapes) = shapes else {
        elements::walk::advance(group, index, word);
        return;
    };
    let mut x = [0u64; PLANE_WORDS];
    let mut z = [0u64; PLANE_WORDS];
    advance_planes(
        group,
        shapes,
        masks,
        index,
        word,
        &mut x[0..m],
        &mut z[0..m],
    );
}

// The walk's step where nothing is found yet.
pub fn step(group: &Lent<'_>, index: usize, word: &mut [u8])
    requires tables { HoldsGroup group.now }
    requires accepted_word { AcceptedWord group.now.sites word.old }
    ensures { word.new ≡ bytes_of (stepped (generators_held group.now) (digits (generators_held group.now) index) (letters_in group.now.sites word.old)) }
{
    let Lent { sites, .. } = *group;
    let m = rotation::planes::words_in_use(sites);
    let mut masks = [0u64; MASK_WORDS];
    let shapes = find_masks(group, m, &mut masks);
    advance(group, m, &shapes, &masks, index, word);
}

// The orbit list: the bytes of one entry for each index.
pub fn fill_orbit(group: &Lent<'_>, order: usize, word: &[u8], list: &mut [u8])
    requires tables { HoldsGroup group.now }
    requires accepted_word { AcceptedWord group.now.sites word.now }
    requires order_value { order ≡ order_of (generators_held group.now) }
    requires list_len { length list.old ≡ word_length * order }
    ensures { list.new ≡ encode_all (orbit_list (generators_held group.now) (letters_in group.now.sites word.now)) }
{
    let Lent { sites, .. } = *group;
    let m = rotation::planes::words_in_use(sites);
    let mut masks = [0u64; MASK_WORDS];
    let shapes = find_masks(group, m, &mut masks);
    let mut here = [0u8; WORD_BYTES];
    pauli_word::inner::copy(word, &mut here);
    for i in 0..order {
        let at = WORD_BYTES * i;
        let end = at + WORD_BYTES;
        pauli_word::inner::copy(&here, &mut list[at..end]);
        advance(group, m, &shapes, &masks, i, &mut here);
    }
}
