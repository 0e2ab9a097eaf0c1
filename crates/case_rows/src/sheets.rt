// Sheets, written in a line: what they print.
use case_text::commands::Sheet;
use case_text::texts::TEXT_ROOM;
use case_text::{fields, texts};
use lines::Append;
use outcome::Refusal;
use sheet_text::{MAX_TABLE, Printed};
use std::alloc::AllocError;

// The most bytes of a lent list, and how many bytes of a table `sheet_end` prints.
const LIST_ROOM: usize = 512;

const LAST: usize = 24;

pub fn answer(out: &mut Vec<u8>, sheet: Sheet<'_>) -> Result<(), AllocError> {
    match sheet {
        Sheet::Whole(text) => print(out, fields::after_space(text), true),
        Sheet::End(text) => print(out, fields::after_space(text), false),
        Sheet::In(text) => match read_in(text) {
            Some((length, text)) => print_in(out, length, text),
            None => write!(out, "?"),
        },
    }
}

// ` L TEXT`: into a list of L bytes.
fn read_in(text: &[u8]) -> Option<(usize, &[u8])> {
    let (length, rest) = fields::first(text)?;
    let length = usize::try_from(fields::number(length)?).ok()?;
    if LIST_ROOM < length {
        return None;
    }
    Some((length, fields::after_space(rest)))
}

// The sheet that a text stands for, at the front of a list, if it is not too long for it.
fn expanded<'a>(text: &[u8], list: &'a mut [u8]) -> Option<&'a [u8]> {
    let length = texts::expand(text, list, 0);
    if length < list.len() {
        Some(&list[..length])
    } else {
        None
    }
}

// What a sheet prints, whole or its end.
fn print(out: &mut Vec<u8>, text: &[u8], whole: bool) -> Result<(), AllocError> {
    let mut room = [0u8; TEXT_ROOM];
    let Some(input) = expanded(text, &mut room) else {
        return write!(out, "?");
    };
    let mut table = vec![in *out.allocator(); 0u8; MAX_TABLE]?;
    let length = match sheet_text::sheet_text(input, &mut table) {
        Printed::Table(length) | Printed::Refused(_, _, length) => length,
        Printed::ListLength => return lines::refusal(out, Refusal::ListLength),
    };
    table.truncate(length);
    texts::bar(&mut table);
    if whole {
        out.write_all(&table)
    } else {
        end(out, &table, input.len())
    }
}

// The length of a sheet and of what it prints, and the last bytes of that.
fn end(out: &mut Vec<u8>, table: &[u8], bytes: usize) -> Result<(), AllocError> {
    let length = table.len();
    write!(out, "{bytes} {length}: ")?;
    out.write_all(&table[length.saturating_sub(LAST)..])
}

// What a sheet prints into a list of dots.
fn print_in(out: &mut Vec<u8>, length: usize, text: &[u8]) -> Result<(), AllocError> {
    let mut room = [0u8; TEXT_ROOM];
    let Some(input) = expanded(text, &mut room) else {
        return write!(out, "?");
    };
    let mut list = vec![in *out.allocator(); b'.'; length]?;
    match sheet_text::sheet_text(input, &mut list) {
        Printed::Table(length) => write!(out, "table {length}")?,
        Printed::Refused(why, line, length) => {
            lines::refusal(out, why)?;
            write!(out, " at line {line}, {length}")?;
        }
        Printed::ListLength => lines::refusal(out, Refusal::ListLength)?,
    }
    texts::bar(&mut list);
    write!(out, ": ")?;
    out.write_all(&list)
}
