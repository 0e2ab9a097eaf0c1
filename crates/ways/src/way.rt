// Which way a group takes: its path as it stands, or refinement through a table of other numbers. Found once for a call, however many words it has.
ghost use Rattle.std.specs.Prelude.{◌≡◌, ◌*◌, ◌≤◌, length};
ghost use Rattle.pauli_word.specs.Limits.{max_sites, word_length};
ghost use Rattle.pauli_word.specs.Bytes.{AcceptedWord, letters_in, bytes_of};
ghost use Rattle.permutation.specs.Limits.{max_generators};
ghost use Rattle.action.specs.Index.{order_of};
ghost use Rattle.action.specs.Orbit.{least as least_of, index_back};
ghost use Rattle.elements.specs.HeldGroup.{HoldsGroup, generators_held};
ghost use Rattle.packed.specs.Packed.{plane_words};
ghost use Rattle.paths.specs.Paths.{Says};
ghost use Rattle.ways.specs.Ways.{room_of, Finds};

use crate::numbers;
use paths::least::Led;
use paths::plan::Path;
use pauli_word::MAX_SITES;
use permutation::Lent;
use rotation::shape::Shapes;

// A way.
#[derive(Clone, Copy)]
pub enum Way {
    // The path of the group as it stands.
    Stands(Path),
    // By refinement through a table; a set of candidates has this many machine words.
    Numbered(usize),
}

impl Way {
    // The machine words of a set of candidates; none where there are no candidates.
    pub fn room(self) -> usize
        ensures { result ≡ room_of self }
    {
        match self {
            Way::Stands(path) => path.words(),
            Way::Numbered(m) => m,
        }
    }
}

// The way of a group: what its path needs, or the table and the axes of a grid with the same orders.
pub fn find_way(
    group: &Lent<'_>,
    order: usize,
    shapes: &mut Shapes,
    masks: &mut [u64],
    site: &mut [u16],
    place: &mut [u16],
) -> Way
    requires tables { HoldsGroup group.now }
    requires order_value { order ≡ order_of (generators_held group.now) }
    requires strides_len { (length shapes.old.strides ≡ max_generators) × (length shapes.old.rests ≡ max_generators) × (max_generators * plane_words ≤ length masks.old) }
    requires site_len { (length site.old ≡ max_sites) × (length place.old ≡ max_sites) }
    ensures few { room_of result ≤ plane_words }
    ensures way { Finds result group.now order shapes.new masks.new site.new place.new }
{
    let path = paths::plan::find_path(group, order, shapes, masks);
    if let Path::Grid(_) = path {
        return Way::Stands(path);
    }
    if MAX_SITES < order {
        return Way::Stands(path);
    }
    renumbered::table::number_sites(group, order, site, place);
    if !renumbered::table::is_renumbered(group, order, site, place) {
        return Way::Stands(path);
    }
    *shapes = renumbered::axes::axis_shapes(group);
    Way::Numbered(rotation::planes::words_in_use(order))
}

// The least word of a word's orbit, into a list, the index that leads back, and which indices fix the word.
pub fn least_by(
    way: Way,
    group: &Lent<'_>,
    shapes: &Shapes,
    masks: &[u64],
    site: &[u16],
    place: &[u16],
    order: usize,
    word: &[u8],
    left: &mut [u64],
    out: &mut [u8],
) -> Led
    requires tables { HoldsGroup group.now }
    requires found { Finds way group.now order shapes.now masks.now site.now place.now }
    requires order_value { order ≡ order_of (generators_held group.now) }
    requires accepted_word { AcceptedWord group.now.sites word.now }
    requires left_len { (length left.old ≡ room_of way) × (length out.old ≡ word_length) }
    ensures word { out.new ≡ bytes_of (least_of (generators_held group.now) (letters_in group.now.sites word.now)) }
    ensures index { result.index ≡ index_back (generators_held group.now) (letters_in group.now.sites word.now) }
    ensures fixing { Says result.fixing (generators_held group.now) (letters_in group.now.sites word.now) left.new }
{
    match way {
        Way::Stands(path) => paths::least::least_into(
            path, group, shapes, masks, order, word, left, out,
        ),
        Way::Numbered(_) => numbers::by_numbers(group, shapes, order, site, place, word, left, out),
    }
}
