// The fields of a line after its name, each with a space before it: numbers, lists of numbers.
ghost use Rattle.std.specs.Prelude.{◌<◌, ◌≤◌, length};

// What a field writes: a number of one kind.
pub trait Field: Copy {
    fn read(field: &[u8]) -> Option<Self>;
}

impl Field for usize {
    fn read(field: &[u8]) -> Option<usize> {
        usize::try_from(number(field)?).ok()
    }
}

impl Field for u32 {
    fn read(field: &[u8]) -> Option<u32> {
        u32::try_from(number(field)?).ok()
    }
}

impl Field for i32 {
    fn read(field: &[u8]) -> Option<i32> {
        i32::try_from(whole(field)?).ok()
    }
}

// The field at a text's front, without its space, and what stands after it.
pub fn first(text: &[u8]) -> Option<(&[u8], &[u8])> {
    if text.is_empty() {
        return None;
    }
    let end = field_end(text, 0);
    Some((&text[1..end], &text[end..]))
}

// The place after the field whose space stands at a place: of the next space, or the text's end.
pub fn field_end(text: &[u8], at: usize) -> usize
    requires { at < length text.now }
    ensures { (at < result) × (result ≤ length text.now) }
{
    let start = at + 1;
    let rest = &text[start..];
    match rest.iter().position(|byte| *byte == b' ') {
        Some(k) => start + k,
        None => text.len(),
    }
}

// The text without the space that it begins with.
pub fn after_space(text: &[u8]) -> &[u8] {
    text.get(1..).unwrap_or(text)
}

// The numbers of a text that has nothing else, at the front of a list that has places for them.
pub fn numbers<'a, N: Field>(text: &[u8], list: &'a mut [N]) -> Option<&'a [N]> {
    let mut count = 0;
    if let Some((_, fields)) = text.split_first() {
        for field in fields.split(|byte| *byte == b' ') {
            *list.get_mut(count)? = N::read(field)?;
            count += 1;
        }
    }
    list.get(..count)
}

// A number in decimal, without leading zeros.
pub fn number(text: &[u8]) -> Option<u64> {
    match text {
        [] | [b'0', _, ..] => return None,
        _ => {}
    }
    let mut value: u64 = 0;
    for byte in text {
        let digit = char::from(*byte).to_digit(10)?;
        value = value.checked_mul(10)?.checked_add(u64::from(digit))?;
    }
    Some(value)
}

// A whole number in decimal: a number, or a minus and a number other than 0.
pub fn whole(text: &[u8]) -> Option<i64> {
    match text.strip_prefix(b"-") {
        Some(digits) => negative(number(digits)?),
        None => i64::try_from(number(text)?).ok(),
    }
}

fn negative(size: u64) -> Option<i64> {
    let less = i64::try_from(size.checked_sub(1)?).ok()?;
    Some(-1 - less)
}
