// The line of names that a text begins with.
ghost use Rattle.std.specs.Prelude.{◌≡◌};
ghost use Rattle.text.specs.Names.{names_read};

use crate::read;

// Where the first line of a text ends, if it is these names.
pub fn names_end(names: &[u8], text: &[u8]) -> Option<usize>
    ensures { result ≡ names_read names.now text.now }
{
    let k = read::find(text, 10);
    if k == text.len() {
        return None;
    }
    if read::same(&text[0..k], names) {
        Some(k)
    } else {
        None
    }
}
