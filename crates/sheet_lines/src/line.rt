// One line of a sheet: the rule that it breaks, its shape with its group, its modes. Whoever calls a function here owes its `requires`.
ghost use Rattle.std.specs.Prelude.{◌≡◌, ◌&&◌, [], ◌∷◌, ℕ, ◌≤◌, IfOk};
ghost use Rattle.text.specs.Text.{is_number, is_mode};
ghost use Rattle.outcome.specs.Outcome.{verdict, outcome_of};
ghost use Rattle.sheet_lines.specs.Lines.{shape_of, sides_of, modes_of, first_pass, line_shape, side_checks, shape_checks, letter_checks, value_checks};
ghost use Rattle.sheet_lines.specs.Parts.{at_line, fits_where, mode_or_zero, lattice_for, sides_group, line_group};

use group::Group;
use outcome::Refusal;

// The shape of a lattice.
#[derive(Clone, Copy)]
pub enum Kind {
    Chain,
    Ladder,
    Torus2,
    Torus3,
    Other,
}

// The shape of a line with its group.
#[derive(Clone, Copy)]
pub struct Shape {
    pub kind: Kind,
    pub group: Group,
}

// The shape of a name.
pub fn kind_of(name: &[u8]) -> Kind
    ensures { result ≡ shape_of name.now }
{
    if text::read::same(name, b"chain") {
        return Kind::Chain;
    }
    if text::read::same(name, b"ladder") {
        return Kind::Ladder;
    }
    if text::read::same(name, b"torus2") {
        return Kind::Torus2;
    }
    if text::read::same(name, b"torus3") {
        return Kind::Torus3;
    }
    Kind::Other
}

// How many sides a shape has.
pub fn sides_of(kind: Kind) -> usize
    ensures { result ≡ sides_of kind }
{
    match kind {
        Kind::Chain => 1,
        Kind::Ladder => 2,
        Kind::Torus2 => 2,
        Kind::Torus3 => 3,
        Kind::Other => 0,
    }
}

// How many modes it has.
pub fn modes_of(kind: Kind) -> usize
    ensures { result ≡ modes_of kind }
{
    match kind {
        Kind::Chain => 1,
        Kind::Ladder => 1,
        Kind::Torus2 => 2,
        Kind::Torus3 => 3,
        Kind::Other => 0,
    }
}

// A number where it is used, else 0.
pub fn side_fits(used: bool, text: &[u8]) -> bool
    ensures { result ≡ fits_where is_number used text.now }
{
    if used {
        text::read::is_number(text)
    } else {
        text::read::same(b"0", text)
    }
}

// Whether three tests hold.
pub fn all(a: bool, b: bool, c: bool) -> bool
    ensures { result ≡ (a && (b && c)) }
{
    a && b && c
}

// The first sides are numbers, and the others 0.
pub fn sides_fit(used: usize, a: &[u8], b: &[u8], c: &[u8]) -> bool
    requires { used ≤ 3 }
    ensures { result ≡ first_pass is_number used (a.now ∷ b.now ∷ c.now ∷ []) }
{
    all(
        side_fits(0 < used, a),
        side_fits(1 < used, b),
        side_fits(2 < used, c),
    )
}

// A mode where it is used, else 0.
pub fn mode_fits(used: bool, text: &[u8]) -> bool
    ensures { result ≡ fits_where is_mode used text.now }
{
    if !used {
        return text::read::same(b"0", text);
    }
    text::read::read_mode(text).is_some()
}

// The first modes are modes, and the others 0.
pub fn modes_fit(used: usize, a: &[u8], b: &[u8], c: &[u8]) -> bool
    requires { used ≤ 3 }
    ensures { result ≡ first_pass is_mode used (a.now ∷ b.now ∷ c.now ∷ []) }
{
    all(
        mode_fits(0 < used, a),
        mode_fits(1 < used, b),
        mode_fits(2 < used, c),
    )
}

// A mode, 0 where a text is none.
pub fn mode_or_zero(text: &[u8]) -> i32
    ensures { result ≡ mode_or_zero text.now }
{
    text::read::read_mode(text).unwrap_or(0)
}

// The group of a shape by its sides: 26, 27, and 31 for no shape.
pub fn lattice(kind: Kind, a: usize, b: usize, c: usize) -> Result<Group, Refusal>
    ensures { outcome_of result ≡ lattice_for kind a b c }
{
    match kind {
        Kind::Chain => group::chain_1d(a),
        Kind::Ladder => group::ladder(a, b),
        Kind::Torus2 => group::torus_2d(a, b),
        Kind::Torus3 => group::torus_3d(a, b, c),
        Kind::Other => Err(Refusal::LineForm),
    }
}

// The line with a shape and its sides: 31, 26, 27; and its group.
pub fn read_shape(line: &[u8]) -> Result<Shape, Refusal>
    ensures answer { (k : ℕ) → at_line k (outcome_of result) ≡ verdict (shape_checks line.now k) }
    ensures shape { IfOk result (λ shape. (shape.kind ≡ line_shape line.now) × (shape.group ≡ line_group line.now)) }
{
    let Some((a, b, c)) = text::read::four_fields(line) else {
        return Err(Refusal::LineForm);
    };
    shape_with(
        kind_of(&line[0..a]),
        &line[a + 1..b],
        &line[b + 1..c],
        &line[c + 1..],
    )
}

// A shape with its sides: 31, 26, 27; and its group.
pub fn shape_with(kind: Kind, a: &[u8], b: &[u8], c: &[u8]) -> Result<Shape, Refusal>
    ensures answer { (k : ℕ) → at_line k (outcome_of result) ≡ verdict (side_checks kind (a.now ∷ b.now ∷ c.now ∷ []) k) }
    ensures shape { IfOk result (λ shape. (shape.kind ≡ kind) × (shape.group ≡ sides_group kind a.now b.now c.now)) }
{
    if !sides_fit(sides_of(kind), a, b, c) {
        return Err(Refusal::LineForm);
    }
    let group = lattice(
        kind,
        text::read::value(a) as usize,
        text::read::value(b) as usize,
        text::read::value(c) as usize,
    )?;
    Ok(Shape { kind, group })
}

// A line with a word and its modes: 31, 28, 29, 16.
pub fn value_fault(used: usize, sites: usize, line: &[u8]) -> Result<(), Refusal>
    requires { used ≤ 3 }
    ensures { (k : ℕ) → at_line k (outcome_of result) ≡ verdict (value_checks used sites line.now k) }
{
    let Some((a, b, c)) = text::read::four_fields(line) else {
        return Err(Refusal::LineForm);
    };
    if !modes_fit(used, &line[a + 1..b], &line[b + 1..c], &line[c + 1..]) {
        return Err(Refusal::LineForm);
    }
    word_fault(sites, &line[0..a])
}

// A word of other letters, too many, or of other sites: 28, 29, 16.
pub fn word_fault(sites: usize, word: &[u8]) -> Result<(), Refusal>
    ensures { (k : ℕ) → at_line k (outcome_of result) ≡ verdict (letter_checks sites word.now k) }
{
    let read = pauli_word::from_text(word)?;
    if read.sites == sites {
        Ok(())
    } else {
        Err(Refusal::OtherSites)
    }
}
