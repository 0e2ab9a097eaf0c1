// The lines that a sheet prints, each written into a list from a place on; the place after it. Whoever calls a function here owes its `requires`.
ghost use Rattle.std.specs.Prelude.{◌≡◌, true, [], ◌∷◌, ◌++◌, ◌+◌, ◌*◌, ◌≤◌, ◌<◌, length};
ghost use Rattle.outcome.specs.Outcome.{verdict, answer, rule_number};
ghost use Rattle.pauli_word.specs.Bytes.{letters_in, AcceptedWord};
ghost use Rattle.pauli_word.specs.Text.{letters_alone, read_text, spell};
ghost use Rattle.elements.specs.HeldGroup.{generators_in, Tables, HoldsGroup, generators_held};
ghost use Rattle.text.specs.Text.{space, decimal, max_written, put};
ghost use Rattle.sheet_lines.specs.Lines.{zero_text, value_checks};
ghost use Rattle.sheet_rows.specs.Rows.{missing, one_text, rest, refusal_line, row as row_of, line_row, number_room, numbers_room, spread};

use decisions::placement::Placement;
use outcome::Refusal;
use pauli_word::WORD_BYTES;
use permutation::Lent;

// The line of a sheet that breaks a rule.
pub fn refusal_line(list: &mut [u8], why: Refusal, line: usize) -> usize
    requires { (line < max_written) × (2 * number_room + 8 ≤ length list.old) }
    ensures place { result ≡ length (refusal_line (rule_number why) line) }
    ensures list { list.new ≡ put 0 (refusal_line (rule_number why) line) list.old }
{
    let name = text::write::append(list, 0, b"refused");
    let end = append_two(list, name, outcome::rule_number(why), line);
    text::write::append(list, end, b"\n")
}

// The row of a line with a word and its modes that breaks no rule; the group that the tables hold has as many generators as modes are used.
pub fn write_row(group: &Lent<'_>, line: &[u8], list: &mut [u8], at: usize) -> usize
    requires tables { HoldsGroup group.now }
    requires used_bound { group.now.generators ≤ 3 }
    requires line_value { verdict (value_checks group.now.generators group.now.sites line.now 0) ≡ answer tt }
    requires line_in_bounds { at + spread * (length line.now + 1) ≤ length list.old }
    ensures place { result ≡ at + length (line_row group.now.generators (generators_held group.now) line.now) }
    ensures list { list.new ≡ put at (line_row group.now.generators (generators_held group.now) line.now) list.old }
{
    let Some((a, b, c)) = text::read::four_fields(line) else {
        return at;
    };
    let modes = [
        sheet_lines::line::mode_or_zero(&line[a + 1..b]),
        sheet_lines::line::mode_or_zero(&line[b + 1..c]),
        sheet_lines::line::mode_or_zero(&line[c + 1..]),
    ];
    word_row(group, &modes[0..group.generators], &line[0..a], list, at)
}

// The row of a word under modes, one for each generator.
fn word_row(group: &Lent<'_>, modes: &[i32], word: &[u8], list: &mut [u8], at: usize) -> usize
    requires tables { HoldsGroup group.now }
    requires modes_len { length modes.now ≡ group.now.generators }
    requires word_value { (letters_alone word.now ≡ true) × (length word.now ≡ group.now.sites) }
    requires numbers_room_in_bounds { at + (2 * length word.now + 1 + numbers_room) ≤ length list.old }
    ensures place { result ≡ at + length (row_of (generators_held group.now) (read_text word.now) modes.now) }
    ensures list { list.new ≡ put at (row_of (generators_held group.now) (read_text word.now) modes.now) list.old }
{
    let sites = group.sites;
    let Ok(read) = pauli_word::from_text(word) else {
        return at;
    };
    let Ok(weight) = pauli_word::weight(sites, &read.word) else {
        return at;
    };
    let end = text::write::append(list, at, word);
    let place = sector_rows::word::placement_of(group, &read.word, modes);
    let answer = place.answer;
    let Placement::Kept(index, size) = answer else {
        return dropped_row(list, end, answer.index(), weight);
    };
    let least = place.word;
    kept_row(list, end, sites, least, index, size, weight)
}

// What follows the word of a dropped row.
fn dropped_row(list: &mut [u8], at: usize, index: usize, weight: usize) -> usize
    requires { (index < max_written) × (weight < max_written) × (at + (2 * number_room + 7) ≤ length list.old) }
    ensures place { result ≡ at + length (rest (missing ∷ decimal index ∷ missing ∷ decimal weight ∷ zero_text ∷ [])) }
    ensures list { list.new ≡ put at (rest (missing ∷ decimal index ∷ missing ∷ decimal weight ∷ zero_text ∷ [])) list.old }
{
    let a = text::write::append(list, at, b" -");
    let b = append_number(list, a, index);
    let c = text::write::append(list, b, b" -");
    let d = append_number(list, c, weight);
    text::write::append(list, d, b" 0\n")
}

// What follows the word of a kept row.
fn kept_row(
    list: &mut [u8],
    at: usize,
    sites: usize,
    least: [u8; WORD_BYTES],
    index: usize,
    size: usize,
    weight: usize,
) -> usize
    requires index_lt_max_written { (index < max_written) × (size < max_written) × (weight < max_written) × (at + (sites + 1 + numbers_room) ≤ length list.old) }
    requires accepted_word { AcceptedWord sites least }
    ensures place { result ≡ at + length (rest (spell (letters_in sites least) ∷ decimal index ∷ decimal size ∷ decimal weight ∷ one_text ∷ [])) }
    ensures list { list.new ≡ put at (rest (spell (letters_in sites least) ∷ decimal index ∷ decimal size ∷ decimal weight ∷ one_text ∷ [])) list.old }
{
    let a = text::write::append(list, at, b" ");
    let b = append_word(list, a, sites, &least);
    append_numbers(list, b, index, size, weight)
}

// What follows the least word.
fn append_numbers(list: &mut [u8], at: usize, index: usize, size: usize, weight: usize) -> usize
    requires { (index < max_written) × (size < max_written) × (weight < max_written) × (at + numbers_room ≤ length list.old) }
    ensures place { result ≡ at + length (rest (decimal index ∷ decimal size ∷ decimal weight ∷ one_text ∷ [])) }
    ensures list { list.new ≡ put at (rest (decimal index ∷ decimal size ∷ decimal weight ∷ one_text ∷ [])) list.old }
{
    let a = append_two(list, at, index, size);
    let b = append_number(list, a, weight);
    text::write::append(list, b, b" 1\n")
}

// Two numbers, each after a space.
fn append_two(list: &mut [u8], at: usize, first: usize, second: usize) -> usize
    requires { (first < max_written) × (second < max_written) × (at + 2 * number_room ≤ length list.old) }
    ensures place { result ≡ at + length ((space ∷ decimal first) ++ (space ∷ decimal second)) }
    ensures list { list.new ≡ put at ((space ∷ decimal first) ++ (space ∷ decimal second)) list.old }
{
    let a = append_number(list, at, first);
    append_number(list, a, second)
}

// A space and a number.
fn append_number(list: &mut [u8], at: usize, number: usize) -> usize
    requires { (number < max_written) × (at + number_room ≤ length list.old) }
    ensures place { result ≡ at + length (space ∷ decimal number) }
    ensures list { list.new ≡ put at (space ∷ decimal number) list.old }
{
    let a = text::write::append(list, at, b" ");
    text::write::append_decimal(list, a, number)
}

// Writes the text of a word.
fn append_word(list: &mut [u8], at: usize, sites: usize, word: &[u8]) -> usize
    requires { (at + sites ≤ length list.old) × AcceptedWord sites word.now }
    ensures place { result ≡ at + sites }
    ensures list { list.new ≡ put at (spell (letters_in sites word.now)) list.old }
{
    let Ok(spelled) = pauli_word::to_text(sites, word) else {
        return at;
    };
    text::write::append(list, at, &spelled.text[0..sites])
}
