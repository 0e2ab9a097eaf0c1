// One part's work on one word: its letters at the part's sites are taken out, made least and put back.
ghost use Rattle.std.specs.Prelude.{◌≡◌, ◌≤◌, length};
ghost use Rattle.pauli_word.specs.Limits.{word_length};
ghost use Rattle.pauli_word.specs.Bytes.{AcceptedWord, letters_in, bytes_of};
ghost use Rattle.action.specs.Index.{order_of};
ghost use Rattle.action.specs.Orbit.{least as least_of, index_back};
ghost use Rattle.elements.specs.HeldGroup.{generators_in, Tables, HoldsGroup, generators_held};
ghost use Rattle.parts.specs.Numbered.{Numbering, read_by};
ghost use Rattle.paths.specs.Paths.{Says};
ghost use Rattle.parted.specs.Steps.{site_of, PartLeast};
ghost use Rattle.ways.specs.Ways.{room_of, Finds};

use paths::least::Led;
use pauli_word::{MAX_SITES, WORD_BYTES};
use permutation::Lent;
use rotation::shape::Shapes;
use ways::way;
use ways::way::Way;

// The work, with room for the codes of the word and of its letters at the part's sites, for these letters as a word and for the least that the part makes of
// them; the part's index back, and which of its indices fix the letters.
pub fn in_codes(
    way: Way,
    own_group: &Lent<'_>,
    shapes: &Shapes,
    masks: &[u64],
    site: &[u16],
    place: &[u16],
    order: usize,
    table: &[u16],
    sites: usize,
    codes: &mut [u8],
    letters: &mut [u8],
    own: &mut [u8],
    least: &mut [u8],
    left: &mut [u64],
    row: &mut [u8],
) -> Led
    requires tables { HoldsGroup own_group.now }
    requires found { Finds way own_group.now order shapes.now masks.now site.now place.now }
    requires order_value { order ≡ order_of (generators_held own_group.now) }
    requires numbering { Numbering sites own_group.now.sites (site_of table.now) × (own_group.now.sites ≤ length table.now) }
    requires accepted_word { AcceptedWord sites row.old }
    requires codes_len { (length codes.old ≡ sites) × (length letters.old ≡ own_group.now.sites) × (length own.old ≡ word_length) × (length least.old ≡ word_length) × (length left.old ≡ room_of way) }
    ensures index { result.index ≡ index_back (generators_held own_group.now) (read_by own_group.now.sites (site_of table.now) (letters_in sites row.old)) }
    ensures word { PartLeast sites own_group.now.sites (site_of table.now) (generators_held own_group.now) (letters_in sites row.old) row.new }
    ensures own { own.new ≡ bytes_of (read_by own_group.now.sites (site_of table.now) (letters_in sites row.old)) }
    ensures least { least.new ≡ bytes_of (least_of (generators_held own_group.now) (read_by own_group.now.sites (site_of table.now) (letters_in sites row.old))) }
    ensures fixing { Says result.fixing (generators_held own_group.now) (read_by own_group.now.sites (site_of table.now) (letters_in sites row.old)) left.new }
{
    elements::letters::unpack(row, sites, codes);
    split::letters::take_out(codes, table, letters);
    let word = elements::letters::pack(letters);
    pauli_word::inner::copy(&word, own);
    let led = way::least_by(
        way, own_group, shapes, masks, site, place, order, own, left, least,
    );
    elements::letters::unpack(least, own_group.sites, letters);
    split::letters::put_back(letters, table, codes);
    let whole = elements::letters::pack(codes);
    pauli_word::inner::copy(&whole, row);
    led
}

// Makes the letters of a word at the part's sites the least that the part makes of them; the part's index back.
pub fn least_part(
    way: Way,
    own_group: &Lent<'_>,
    shapes: &Shapes,
    masks: &[u64],
    site: &[u16],
    place: &[u16],
    order: usize,
    table: &[u16],
    sites: usize,
    left: &mut [u64],
    row: &mut [u8],
) -> usize
    requires tables { HoldsGroup own_group.now }
    requires found { Finds way own_group.now order shapes.now masks.now site.now place.now }
    requires order_value { order ≡ order_of (generators_held own_group.now) }
    requires numbering { Numbering sites own_group.now.sites (site_of table.now) × (own_group.now.sites ≤ length table.now) }
    requires accepted_word { AcceptedWord sites row.old × (length left.old ≡ room_of way) }
    ensures index { result ≡ index_back (generators_held own_group.now) (read_by own_group.now.sites (site_of table.now) (letters_in sites row.old)) }
    ensures word { PartLeast sites own_group.now.sites (site_of table.now) (generators_held own_group.now) (letters_in sites row.old) row.new }
{
    let mut codes = [0u8; MAX_SITES];
    let mut letters = [0u8; MAX_SITES];
    let mut own = [0u8; WORD_BYTES];
    let mut least = [0u8; WORD_BYTES];
    let led = in_codes(
        way,
        own_group,
        shapes,
        masks,
        site,
        place,
        order,
        table,
        sites,
        &mut codes[0..sites],
        &mut letters[0..own_group.sites],
        &mut own,
        &mut least,
        left,
        row,
    );
    led.index
}
