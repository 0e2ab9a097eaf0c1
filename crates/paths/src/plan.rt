// Which path a group takes, and what the path needs of the group: found once for a call, however many words it has.
ghost use Rattle.std.specs.Prelude.{◌≡◌, ◌*◌, ◌≤◌, length};
ghost use Rattle.action.specs.Index.{order_of};
ghost use Rattle.elements.specs.HeldGroup.{HoldsGroup, generators_held};
ghost use Rattle.packed.specs.Packed.{plane_words};
ghost use Rattle.permutation.specs.Limits.{max_generators};
ghost use Rattle.paths.specs.Paths.{words_of, Takes};

use pauli_word::MAX_SITES;
use permutation::Lent;
use rotation::shape::Shapes;

// A path.
#[derive(Clone, Copy)]
pub enum Path {
    // By refinement, on a grid; a set of candidates has this many machine words.
    Grid(usize),
    // By masks, where generators rotate inside blocks.
    Masks,
    // A byte a site.
    Letters,
}

impl Path {
    // The machine words of a set of candidates; none where there are no candidates.
    pub fn words(self) -> usize
        ensures { result ≡ words_of self }
    {
        match self {
            Path::Grid(m) => m,
            Path::Masks => 0,
            Path::Letters => 0,
        }
    }
}

// The path of a group: the strides and the rests of its generators where they rotate, and the masks by which candidates step where it is a grid.
pub fn find_path(group: &Lent<'_>, order: usize, shapes: &mut Shapes, masks: &mut [u64]) -> Path
    requires tables { HoldsGroup group.now }
    requires order_value { order ≡ order_of (generators_held group.now) }
    requires strides_len { (length shapes.old.strides ≡ max_generators) × (length shapes.old.rests ≡ max_generators) × (max_generators * plane_words ≤ length masks.old) }
    ensures few { words_of result ≤ plane_words }
    ensures path { Takes result group.now order shapes.new masks.new }
{
    let Lent { generators, .. } = *group;
    let Some(found) = rotation::shape::find_shapes(group) else {
        return Path::Letters;
    };
    *shapes = found;
    if MAX_SITES < order {
        return Path::Masks;
    }
    if !grid::axes::is_grid(group, shapes) {
        return Path::Masks;
    }
    let m = rotation::planes::words_in_use(order);
    rotation::planes::fill_masks(&shapes.rests, &shapes.strides, generators, order, m, masks);
    Path::Grid(m)
}
