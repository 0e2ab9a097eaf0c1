// The constant table's own print, by its lines: line 1 has the names, and line j + 2 entry j.
use case_text::{fields, texts};
use std::io;
use std::io::{Cursor, Write};

// Lines of it, with the last.
#[derive(Clone, Copy)]
pub struct Lines {
    from: usize,
    to: usize,
}

// `[A:B]`.
pub fn read(piece: &[u8]) -> Option<Lines> {
    let ends = piece.strip_prefix(b"[")?.strip_suffix(b"]")?;
    let (from, to) = texts::split_once(ends, b':')?;
    Some(Lines {
        from: usize::try_from(fields::number(from)?).ok()?,
        to: usize::try_from(fields::number(to)?).ok()?,
    })
}

// Writes lines at a place of a list, those that there are; the place after them, or the list's end where it has no room for them.
pub fn append(lines: Lines, list: &mut [u8], start: usize) -> usize {
    let end = list.len();
    let mut file = Cursor::new(list);
    file.set_position(start as u64);
    match print(&mut file, lines) {
        Ok(()) => file.position() as usize,
        Err(_) => end,
    }
}

// Prints lines, those that there are.
fn print<W: Write>(file: &mut W, lines: Lines) -> io::Result<()> {
    let Lines { from, to } = lines;
    if from <= 1 && 1 <= to {
        write!(file, "cos sin\n")?;
    }
    let table = phases::phase_table();
    let entries = table.cosines.iter().zip(table.sines.iter());
    for (cosine, sine) in entries
        .take(to.saturating_sub(1))
        .skip(from.saturating_sub(2))
    {
        write!(file, "{cosine} {sine}\n")?;
    }
    Ok(())
}
