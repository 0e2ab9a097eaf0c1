// Bytes into lists, and the sheet or file that a text stands for: `|` is byte 10, `\HH` the byte of two hexadecimal digits, `{K:TEXT}` K times TEXT, in
// which bars are byte 10 too. Whatever else stands for itself.
ghost use Rattle.std.specs.Prelude.{◌<◌, length, IfSome};

use crate::{fields, hexadecimal};
use pauli_word::{OLD_PLANE_BYTES, OLD_WORD_BYTES, PLANE_BYTES};

// The most bytes of a line, and of the sheet or file that it writes, and one: what has as many is too long.
pub const TEXT_ROOM: usize = 131072;

// What the front of a text stands for.
#[derive(Clone, Copy)]
enum Piece<'a> {
    Byte(u8),
    // So many times this text.
    Times(u64, &'a [u8]),
}

// Writes bytes over a list, and zeros after them.
pub fn write(bytes: &[u8], list: &mut [u8]) {
    list.fill(0);
    for (place, byte) in list.iter_mut().zip(bytes) {
        *place = *byte;
    }
}

// A word in full in the old form: the first bytes of either plane.
pub fn old_form(word: &[u8]) -> [u8; OLD_WORD_BYTES] {
    let mut old = [0u8; OLD_WORD_BYTES];
    let planes = word.chunks_exact(PLANE_BYTES);
    for (place, plane) in old.chunks_exact_mut(OLD_PLANE_BYTES).zip(planes) {
        write(plane, place);
    }
    old
}

// What stands before the first such byte, and after it.
pub fn split_once(text: &[u8], byte: u8) -> Option<(&[u8], &[u8])>
    ensures { IfSome result (λ parts. length parts.1.now < length text.now) }
{
    let at = text.iter().position(|b| *b == byte)?;
    Some((&text[..at], &text[at + 1..]))
}

// Writes what a text stands for at a place of a list; the place after it. A list that is full stays as it is: what fills it whole is too long for it.
pub fn expand(text: &[u8], list: &mut [u8], start: usize) -> usize {
    let mut place = start;
    let mut rest = text;
    // How much of the text a piece takes shows only where it is read.
    while let Some((piece, after)) = first_piece(rest) {
        if list.len() <= place {
            break;
        }
        place = match piece {
            Piece::Byte(byte) => put(list, place, byte),
            Piece::Times(count, times) => append_times(times, list, place, count),
        };
        rest = after;
    }
    place
}

// Writes a byte at a place of a list; the place after it.
fn put(list: &mut [u8], at: usize, byte: u8) -> usize {
    if at < list.len() {
        list[at] = byte;
        at + 1
    } else {
        at
    }
}

// What the front of a text stands for, and what stands after it.
fn first_piece(text: &[u8]) -> Option<(Piece<'_>, &[u8])>
    ensures { IfSome result (λ parts. length parts.1.now < length text.now) }
{
    let (first, after) = text.split_first()?;
    match *first {
        b'{' => Some(times(after).unwrap_or((Piece::Byte(b'{'), after))),
        b'\\' => Some(escaped(after).unwrap_or((Piece::Byte(b'\\'), after))),
        byte => Some((Piece::Byte(unbarred(byte)), after)),
    }
}

// `K:TEXT}`.
fn times(text: &[u8]) -> Option<(Piece<'_>, &[u8])>
    ensures { IfSome result (λ parts. length parts.1.now < length text.now) }
{
    let (repeat, after) = split_once(text, b'}')?;
    let (count, times) = split_once(repeat, b':')?;
    Some((Piece::Times(fields::number(count)?, times), after))
}

// `HH`.
fn escaped(text: &[u8]) -> Option<(Piece<'_>, &[u8])>
    ensures { IfSome result (λ parts. length parts.1.now < length text.now) }
{
    let [high, low, after @ ..] = text else {
        return None;
    };
    Some((Piece::Byte(hexadecimal::byte(*high, *low)?), after))
}

// Writes a text so many times at a place of a list, until that is full; the place after it.
fn append_times(text: &[u8], list: &mut [u8], start: usize, count: u64) -> usize {
    let mut place = start;
    if text.is_empty() {
        return place;
    }
    for _ in 0..count {
        if list.len() <= place {
            break;
        }
        for byte in text {
            place = put(list, place, unbarred(*byte));
        }
    }
    place
}

// A byte, byte 10 for a bar.
fn unbarred(byte: u8) -> u8 {
    if byte == b'|' { b'\n' } else { byte }
}

// Puts bars for line ends.
pub fn bar(list: &mut [u8]) {
    for byte in list {
        if *byte == b'\n' {
            *byte = b'|';
        }
    }
}
