// One part's decision for one word: the letters at the part's sites are taken out, made least and put back, and the part decides for them.
ghost use Rattle.std.specs.Prelude.{◌≡◌, ◌≤◌, length};
ghost use Rattle.pauli_word.specs.Limits.{word_length};
ghost use Rattle.pauli_word.specs.Bytes.{AcceptedWord, letters_in};
ghost use Rattle.action.specs.Index.{order_of};
ghost use Rattle.action.specs.Sector.{modulus as modulusOf};
ghost use Rattle.elements.specs.HeldGroup.{HoldsGroup, generators_held};
ghost use Rattle.parts.specs.Numbered.{Numbering, read_by};
ghost use Rattle.parted.specs.Steps.{site_of, PartLeast};
ghost use Rattle.decisions.specs.Decisions.{decision};
ghost use Rattle.decisions.specs.Placements.{placement_of};
ghost use Rattle.ways.specs.Ways.{room_of, Finds};

use decisions::placement::Placement;
use decisions::stabilizer;
use pauli_word::{MAX_SITES, WORD_BYTES};
use permutation::Lent;
use rotation::shape::Shapes;
use ways::way::Way;

// The decision, with room for the codes of the word and of its letters at the part's sites, for these letters as a word and for the least that the part makes
// of them. The row has the least letters also where the part drops the word.
pub fn place_in_codes(
    way: Way,
    own_group: &Lent<'_>,
    shapes: &Shapes,
    masks: &[u64],
    site: &[u16],
    place: &[u16],
    order: usize,
    modulus: usize,
    modes: &[i32],
    table: &[u16],
    sites: usize,
    codes: &mut [u8],
    letters: &mut [u8],
    own: &mut [u8],
    least: &mut [u8],
    left: &mut [u64],
    row: &mut [u8],
) -> Placement
    requires tables { HoldsGroup own_group.now }
    requires found { Finds way own_group.now order shapes.now masks.now site.now place.now }
    requires order_value { order ≡ order_of (generators_held own_group.now) }
    requires modulus_value { (modulus ≡ modulusOf (generators_held own_group.now)) × (length modes.now ≡ own_group.now.generators) }
    requires numbering { Numbering sites own_group.now.sites (site_of table.now) × (own_group.now.sites ≤ length table.now) }
    requires accepted_word { AcceptedWord sites row.old }
    requires codes_len { (length codes.old ≡ sites) × (length letters.old ≡ own_group.now.sites) × (length own.old ≡ word_length) × (length least.old ≡ word_length) × (length left.old ≡ room_of way) }
    ensures answer { result ≡ placement_of (decision (generators_held own_group.now) modes.now (read_by own_group.now.sites (site_of table.now) (letters_in sites row.old))) }
    ensures word { PartLeast sites own_group.now.sites (site_of table.now) (generators_held own_group.now) (letters_in sites row.old) row.new }
{
    let led = parted::part::in_codes(
        way, own_group, shapes, masks, site, place, order, table, sites, codes, letters, own,
        least, left, row,
    );
    let fixing = led.fixing;
    stabilizer::placed_by(
        fixing, led.index, own_group, order, modulus, modes, own, left, least,
    )
}

// A part's decision for a word, whose letters at the part's sites become the least that the part makes of them.
pub fn place_part(
    way: Way,
    own_group: &Lent<'_>,
    shapes: &Shapes,
    masks: &[u64],
    site: &[u16],
    place: &[u16],
    order: usize,
    modulus: usize,
    modes: &[i32],
    table: &[u16],
    sites: usize,
    left: &mut [u64],
    row: &mut [u8],
) -> Placement
    requires tables { HoldsGroup own_group.now }
    requires found { Finds way own_group.now order shapes.now masks.now site.now place.now }
    requires order_value { order ≡ order_of (generators_held own_group.now) }
    requires modulus_value { (modulus ≡ modulusOf (generators_held own_group.now)) × (length modes.now ≡ own_group.now.generators) }
    requires numbering { Numbering sites own_group.now.sites (site_of table.now) × (own_group.now.sites ≤ length table.now) }
    requires accepted_word { AcceptedWord sites row.old × (length left.old ≡ room_of way) }
    ensures answer { result ≡ placement_of (decision (generators_held own_group.now) modes.now (read_by own_group.now.sites (site_of table.now) (letters_in sites row.old))) }
    ensures word { PartLeast sites own_group.now.sites (site_of table.now) (generators_held own_group.now) (letters_in sites row.old) row.new }
{
    let mut codes = [0u8; MAX_SITES];
    let mut letters = [0u8; MAX_SITES];
    let mut own = [0u8; WORD_BYTES];
    let mut least = [0u8; WORD_BYTES];
    place_in_codes(
        way,
        own_group,
        shapes,
        masks,
        site,
        place,
        order,
        modulus,
        modes,
        table,
        sites,
        &mut codes[0..sites],
        &mut letters[0..own_group.sites],
        &mut own,
        &mut least,
        left,
        row,
    )
}
