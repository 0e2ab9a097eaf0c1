// Reading: pieces of a text, numbers, signed numbers, modes, the fields of a line.
ghost use Rattle.std.specs.Prelude.{◌≡◌, ◌-◌, ◌≤◌, ◌<◌, min, length, get_or};
ghost use Rattle.action.specs.Lists.{same_numbers, every};
ghost use Rattle.text.specs.Text.{minus, zero_digit, before, is_digit, is_number, number_of};
ghost use Rattle.text.specs.Parts.{cap, signed_read, mode_in, mode_read, field_from, fields_read};

// The largest value that is told apart.
pub const CAP: u64 = 4294967296;

// Modes lie below it, and no lower than minus it.
pub const MODE_BOUND: i64 = 2147483648;

// A field of a line.
#[derive(Clone, Copy)]
pub enum Field {
    // A space ends it, at this place.
    Ends(usize),
    // The line ends it.
    Last,
    Empty,
}

// Where the first such byte stands; the length where there is none.
pub fn find(text: &[u8], byte: u8) -> usize
    ensures { result ≡ length (before byte text.now) }
{
    text.iter().position(|b| *b == byte).unwrap_or(text.len())
}

// Whether two texts are the same.
pub fn same(a: &[u8], b: &[u8]) -> bool
    ensures { result ≡ same_numbers a.now b.now }
{
    a == b
}

// Whether a text holds digits alone.
pub fn digits_alone(text: &[u8]) -> bool
    ensures { result ≡ every is_digit text.now }
{
    text.iter().all(|byte| byte.is_ascii_digit())
}

// Whether a text is a number in decimal, without leading zeros.
pub fn is_number(text: &[u8]) -> bool
    ensures { result ≡ is_number text.now }
{
    if text.len() == 0 {
        return false;
    }
    if text.len() == 1 {
        return digits_alone(text);
    }
    if text[0] == b'0' {
        return false;
    }
    digits_alone(text)
}

// The number of a digit; 0 for a byte below the digits.
pub fn digit(byte: u8) -> u64
    ensures { result ≡ byte - zero_digit }
{
    if byte < b'0' { 0 } else { (byte - b'0') as u64 }
}

pub fn capped(value: u64) -> u64
    ensures { result ≡ min value cap }
{
    if CAP < value { CAP } else { value }
}

// The number that a text writes, up to the cap: read without overflow, however long the text is.
pub fn value(text: &[u8]) -> u64
    ensures { result ≡ min (number_of text.now) cap }
{
    let mut v: u64 = 0;
    for byte in text {
        v = capped(10 * v + digit(*byte));
    }
    v
}

// A signed number, no further from 0 than the cap, however long the text is.
pub fn read_signed(text: &[u8]) -> Option<i64>
    ensures { result ≡ signed_read text.now }
{
    if text.len() == 0 {
        return None;
    }
    if text[0] == b'-' {
        return negative(text);
    }
    if is_number(text) {
        Some(value(text) as i64)
    } else {
        None
    }
}

// A signed number with a minus before it.
pub fn negative(text: &[u8]) -> Option<i64>
    requires { (0 < length text.now) × (get_or text.now 0 0 ≡ minus) }
    ensures { result ≡ signed_read text.now }
{
    let digits = &text[1..];
    if !is_number(digits) {
        return None;
    }
    let v = value(digits);
    if v == 0 {
        return None;
    }
    Some(0 - (v as i64))
}

// A number as a mode, if it is one.
pub fn mode_in(number: i64) -> Option<i32>
    ensures { result ≡ mode_in number }
{
    if number < -MODE_BOUND {
        return None;
    }
    if number < MODE_BOUND {
        Some(number as i32)
    } else {
        None
    }
}

// A mode: a signed number of 32 bits.
pub fn read_mode(text: &[u8]) -> Option<i32>
    ensures { result ≡ mode_read text.now }
{
    mode_in(read_signed(text)?)
}

// The field of a line that begins at a place.
pub fn field_from(line: &[u8], start: usize) -> Field
    requires { start ≤ length line.now }
    ensures { result ≡ field_from line.now start }
{
    let text = &line[start..];
    let k = find(text, b' ');
    if k == 0 {
        return Field::Empty;
    }
    if k == text.len() {
        Field::Last
    } else {
        Field::Ends(start + k)
    }
}

// The four fields of a line, none of them empty, by where the first three end.
pub fn four_fields(line: &[u8]) -> Option<(usize, usize, usize)>
    ensures { result ≡ fields_read line.now }
{
    let Field::Ends(a) = field_from(line, 0) else {
        return None;
    };
    let Field::Ends(b) = field_from(line, a + 1) else {
        return None;
    };
    let Field::Ends(c) = field_from(line, b + 1) else {
        return None;
    };
    let Field::Last = field_from(line, c + 1) else {
        return None;
    };
    Some((a, b, c))
}
