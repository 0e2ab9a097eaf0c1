// Powers of a permutation, and words moved by them on their codes, one byte a site. Whoever calls a function here owes its `requires`.
ghost use Rattle.std.specs.Prelude.{◌≡◌, ◌<◌, length};
ghost use Rattle.pauli_word.specs.Word.{Word};
ghost use Rattle.action.specs.Permutation.{Permutes};
ghost use Rattle.action.specs.Orbit.{moves, reach};
ghost use Rattle.elements.specs.HeldGroup.{HoldsGroup, generators_held};
ghost use Rattle.elements.specs.Letters.{codes};
ghost use Rattle.at_index.specs.Powers.{squared};

use elements::letters;
use pauli_word::MAX_SITES;
use permutation::Lent;

// Copies targets.
pub fn copy(src: &[u16], dst: &mut [u16])
    requires { length src.now ≡ length dst.old }
    ensures { dst.new ≡ src.now }
{
    dst.copy_from_slice(src);
}

// The square of a permutation: where two moves send each site.
pub fn fill_square(perm: &[u16], out: &mut [u16])
    requires permutes { Permutes (length perm.now) perm.now }
    requires out_len { length out.old ≡ length perm.now }
    ensures { out.new ≡ squared perm.now }
{
    for q in 0..perm.len() {
        let next = perm[q] as usize;
        out[q] = perm[next];
    }
}

// A permutation squared in its place; room is as long.
pub fn square(perm: &mut [u16], room: &mut [u16])
    requires permutes { Permutes (length perm.old) perm.old }
    requires room_len { length room.old ≡ length perm.old }
    ensures { perm.new ≡ squared perm.old }
{
    fill_square(perm, room);
    copy(room, perm);
}

// Codes moved by a permutation in their place, once or not at all; spare is room for as many.
pub fn move_by_digit(digit: usize, perm: &[u16], here: &mut [u8], spare: &mut [u8])
    requires digit_bound { digit < 2 }
    requires permutes { Permutes (length here.old) perm.now }
    requires spare_len { length spare.old ≡ length here.old }
    ensures { (w : Word) → here.old ≡ codes w → here.new ≡ codes (moves digit perm.now w) }
{
    if digit == 1 {
        letters::move_letters(perm, here, spare);
        pauli_word::inner::copy(spare, here);
    }
}

// Codes moved as often as a count says: a square of the permutation for each binary digit of the count but the first, and a move for each digit 1.
pub fn move_often(
    count: usize,
    perm: &mut [u16],
    room: &mut [u16],
    here: &mut [u8],
    spare: &mut [u8],
)
    requires permutes { Permutes (length here.old) perm.old }
    requires room_len { length room.old ≡ length here.old }
    requires spare_len { length spare.old ≡ length here.old }
    ensures { (w : Word) → here.old ≡ codes w → here.new ≡ codes (moves count perm.old w) }
{
    let mut left = count;
    // A while: what is left is halved, which no range counts.
    while 1 < left {
        move_by_digit(left % 2, perm, here, spare);
        square(perm, room);
        left = left / 2;
    }
    move_by_digit(left, perm, here, spare);
}

// Codes moved by each generator as often as its digit of the index says; perm and room are room for targets, spare for codes.
pub fn reach_codes(
    group: &Lent<'_>,
    index: usize,
    perm: &mut [u16],
    room: &mut [u16],
    here: &mut [u8],
    spare: &mut [u8],
)
    requires tables { HoldsGroup group.now }
    requires perm_len { length perm.old ≡ group.now.sites }
    requires room_len { length room.old ≡ group.now.sites }
    requires here_len { length here.old ≡ group.now.sites }
    requires spare_len { length spare.old ≡ group.now.sites }
    ensures { (w : Word) → here.old ≡ codes w → here.new ≡ codes (reach (generators_held group.now) index w) }
{
    let Lent {
        targets,
        orders,
        generators,
        sites,
    } = *group;
    let mut rest = index;
    for g in 0..generators {
        let start = MAX_SITES * g;
        let end = start + sites;
        let o = orders[g] as usize;
        copy(&targets[start..end], perm);
        move_often(rest % o, perm, room, here, spare);
        rest = rest / o;
    }
}
