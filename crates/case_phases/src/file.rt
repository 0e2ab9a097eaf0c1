// The file of a phase table, written in a line. The text is as a sheet's, and besides `[A:B]` stands for lines A to B of the constant table's own
// print, those that there are, each with its line end.
ghost use Rattle.std.specs.Prelude.{◌<◌, length, IfSome};

use crate::own;
use case_text::texts;

// Writes what a text stands for at the front of a list; its length. A list that is full stays as it is: what fills a list whole is too long for it.
pub fn expand(text: &[u8], list: &mut [u8]) -> usize {
    let mut place = 0;
    let mut rest = text;
    // How much of the text a piece takes shows only where it is read.
    while let Some((piece, after)) = first_piece(rest) {
        if list.len() <= place {
            break;
        }
        place = match own::read(piece) {
            Some(lines) => own::append(lines, list, place),
            None => texts::expand(piece, list, place),
        };
        rest = after;
    }
    place
}

// The first piece of a text, and what stands after it. A piece is what brackets enclose, with them, or what stands before the next bracket.
fn first_piece(text: &[u8]) -> Option<(&[u8], &[u8])>
    ensures { IfSome result (λ parts. length parts.1.now < length text.now) }
{
    let (first, rest) = text.split_first()?;
    let closing = if *first == b'[' {
        rest.iter().position(|byte| *byte == b']')
    } else {
        None
    };
    let opening = rest.iter().position(|byte| *byte == b'[');
    let end = match closing {
        Some(k) => k + 2,
        None => opening.map_or(text.len(), |k| k + 1),
    };
    Some((&text[..end], &text[end..]))
}
