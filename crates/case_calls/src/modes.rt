// Modes and their phase numerators.
use case_text::commands::OfModes;
use case_text::fields;
use lines::Append;
use permutation::{Lent, MAX_GENERATORS};
use std::alloc::AllocError;

// The most places of a list of numerators.
const TABLE_ROOM: usize = 4096;

// The most modes, and the most places of a counter list.
pub const MODE_ROOM: usize = 2 * MAX_GENERATORS;

// The first `count` of these.
#[derive(Clone, Copy)]
pub struct Modes {
    pub list: [i32; MODE_ROOM],
    pub count: usize,
}

impl Modes {
    pub fn front(&self) -> &[i32] {
        self.list.get(..self.count).unwrap_or(&self.list)
    }
}

// ` k k ..`. The modes before stay in force where the text has another form.
pub fn put(out: &mut Vec<u8>, modes: &mut Modes, text: &[u8]) -> Result<(), AllocError> {
    let mut list = [0i32; MODE_ROOM];
    match fields::numbers(text, &mut list) {
        Some(read) => {
            let count = read.len();
            *modes = Modes { list, count };
            write!(out, "set")
        }
        None => write!(out, "?"),
    }
}

// What the calls with modes and no word answer.
pub fn answer(
    out: &mut Vec<u8>,
    group: &Lent<'_>,
    modes: &[i32],
    call: OfModes<'_>,
) -> Result<(), AllocError> {
    match call {
        OfModes::Numerator(digits) => numerator(out, group, modes, digits),
        OfModes::Table(places) => table(out, group, modes, places),
    }
}

// ` d d ..`.
fn numerator(
    out: &mut Vec<u8>,
    group: &Lent<'_>,
    modes: &[i32],
    text: &[u8],
) -> Result<(), AllocError> {
    let mut digits = [0u32; MODE_ROOM];
    match fields::numbers(text, &mut digits) {
        Some(counter) => {
            lines::number(out, momentum::character_numerator(group, modes, counter))
        }
        None => write!(out, "?"),
    }
}

fn table(
    out: &mut Vec<u8>,
    group: &Lent<'_>,
    modes: &[i32],
    places: usize,
) -> Result<(), AllocError> {
    if TABLE_ROOM < places {
        return write!(out, "?");
    }
    let mut list = vec![in *out.allocator(); 9usize; places]?;
    lines::verdict(
        out,
        momentum::character_table(group, modes, &mut list),
        b"done",
    )?;
    write!(out, ":")?;
    lines::numbers(out, &list)
}
