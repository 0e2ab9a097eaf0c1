// The commands that lines of cases write, by their names. Where one takes more than numbers, its text is what stands after the name.
use crate::fields;
use crate::lists::{Lengths, Lists};

// The most numbers after a name.
const MOST_NUMBERS: usize = 5;

#[derive(Clone, Copy)]
pub enum Command<'a> {
    Put(Put<'a>),
    Ask(Ask<'a>),
}

// What puts something in force.
#[derive(Clone, Copy)]
pub enum Put<'a> {
    Group(&'a [u8]),
    Lattice(Lattice),
    Set(&'a [u8]),
    Word(&'a [u8]),
    Bytes(&'a [u8]),
    Old,
    Modes(&'a [u8]),
    Orbit,
    Next(usize),
    Rows(RowsLine<'a>),
    PhaseTable,
    PhaseFile(&'a [u8]),
}

// What prints an answer and changes nothing.
#[derive(Clone, Copy)]
pub enum Ask<'a> {
    OfGroup(OfGroup<'a>),
    OfWord(OfWord<'a>),
    OfOrbit(OfOrbit),
    OfModes(OfModes<'a>),
    Filled(Filled),
    Sheet(Sheet<'a>),
    Sum(Lists),
    Project(Lists),
    Words(Lists),
    SectorWords(Lists),
    Phase(usize),
}

// A lattice, by its sizes.
#[derive(Clone, Copy)]
pub enum Lattice {
    Chain(usize),
    Ladder(usize, usize),
    Torus2(usize, usize),
    Torus3(usize, usize, usize),
}

// What asks of the group.
#[derive(Clone, Copy)]
pub enum OfGroup<'a> {
    Order,
    Modulus,
    Invert(usize),
    Index(&'a [u8]),
    Targets,
}

// What asks of the word.
#[derive(Clone, Copy)]
pub enum OfWord<'a> {
    Text,
    Weight,
    Compare(&'a [u8]),
    CompareText(&'a [u8]),
}

// What asks of the group and the word.
#[derive(Clone, Copy)]
pub enum OfOrbit {
    Canonicalize,
    WithIndex,
    At(usize),
    List(usize),
}

// What asks of the group and the modes.
#[derive(Clone, Copy)]
pub enum OfModes<'a> {
    Numerator(&'a [u8]),
    Table(usize),
}

// The calls that fill a counter list, and the places of that.
#[derive(Clone, Copy)]
pub struct Filled {
    pub call: Filling,
    pub places: usize,
}

#[derive(Clone, Copy)]
pub enum Filling {
    Counter(usize),
    WithShift,
    Sector,
    Beside,
}

// What prints a sheet.
#[derive(Clone, Copy)]
pub enum Sheet<'a> {
    Whole(&'a [u8]),
    End(&'a [u8]),
    In(&'a [u8]),
}

// What changes the rows of a sum.
#[derive(Clone, Copy)]
pub enum RowsLine<'a> {
    Clear,
    Float(&'a [u8]),
    Floats(&'a [u8]),
    Whole(&'a [u8]),
    Wholes(&'a [u8]),
    Numbered(usize),
    Old,
}

// The command of a line, if it has the form of one.
pub fn read(line: &[u8]) -> Option<Command<'_>> {
    let end = line.iter().position(|byte| *byte == b' ');
    let (name, rest) = line.split_at_checked(end.unwrap_or(line.len()))?;
    let mut list = [0usize; MOST_NUMBERS];
    let numbers = fields::numbers(rest, &mut list);
    match put_text(name, rest).or(put_numbers(name, numbers)) {
        Some(put) => Some(Command::Put(put)),
        None => Some(Command::Ask(ask_text(name, rest).or(ask_numbers(name, numbers))?)),
    }
}

// What puts something in force and has a text of its own.
fn put_text<'a>(name: &[u8], rest: &'a [u8]) -> Option<Put<'a>> {
    match name {
        b"group" => Some(Put::Group(rest)),
        b"set" => Some(Put::Set(rest)),
        b"word" => Some(Put::Word(rest)),
        b"bytes" => Some(Put::Bytes(rest)),
        b"modes" => Some(Put::Modes(rest)),
        b"row" => Some(Put::Rows(RowsLine::Float(rest))),
        b"rows" => Some(Put::Rows(RowsLine::Floats(rest))),
        b"whole" => Some(Put::Rows(RowsLine::Whole(rest))),
        b"wholes" => Some(Put::Rows(RowsLine::Wholes(rest))),
        b"phase_file" => Some(Put::PhaseFile(rest)),
        _ => None,
    }
}

// What puts something in force and has numbers alone.
fn put_numbers<'a>(name: &[u8], numbers: Option<&[usize]>) -> Option<Put<'a>> {
    match (name, numbers?) {
        (b"chain", [n]) => Some(Put::Lattice(Lattice::Chain(*n))),
        (b"ladder", [l, legs]) => Some(Put::Lattice(Lattice::Ladder(*l, *legs))),
        (b"torus2", [x, y]) => Some(Put::Lattice(Lattice::Torus2(*x, *y))),
        (b"torus3", [x, y, z]) => Some(Put::Lattice(Lattice::Torus3(*x, *y, *z))),
        (b"old", []) => Some(Put::Old),
        (b"orbit", []) => Some(Put::Orbit),
        (b"next", [count]) => Some(Put::Next(*count)),
        (b"clear", []) => Some(Put::Rows(RowsLine::Clear)),
        (b"numbered", [count]) => Some(Put::Rows(RowsLine::Numbered(*count))),
        (b"old_rows", []) => Some(Put::Rows(RowsLine::Old)),
        (b"phase_table", []) => Some(Put::PhaseTable),
        _ => None,
    }
}

// What asks and has a text of its own.
fn ask_text<'a>(name: &[u8], rest: &'a [u8]) -> Option<Ask<'a>> {
    match name {
        b"index" => Some(Ask::OfGroup(OfGroup::Index(rest))),
        b"compare" => Some(Ask::OfWord(OfWord::Compare(rest))),
        b"compare_text" => Some(Ask::OfWord(OfWord::CompareText(rest))),
        b"numerator" => Some(Ask::OfModes(OfModes::Numerator(rest))),
        b"sheet" => Some(Ask::Sheet(Sheet::Whole(rest))),
        b"sheet_end" => Some(Ask::Sheet(Sheet::End(rest))),
        b"sheet_in" => Some(Ask::Sheet(Sheet::In(rest))),
        _ => None,
    }
}

// What asks and has numbers alone.
fn ask_numbers<'a>(name: &[u8], numbers: Option<&[usize]>) -> Option<Ask<'a>> {
    let numbers = numbers?;
    match (name, numbers) {
        (b"order", []) => Some(Ask::OfGroup(OfGroup::Order)),
        (b"modulus", []) => Some(Ask::OfGroup(OfGroup::Modulus)),
        (b"invert", [index]) => Some(Ask::OfGroup(OfGroup::Invert(*index))),
        (b"targets", []) => Some(Ask::OfGroup(OfGroup::Targets)),
        (b"text", []) => Some(Ask::OfWord(OfWord::Text)),
        (b"weight", []) => Some(Ask::OfWord(OfWord::Weight)),
        (b"canonicalize", []) => Some(Ask::OfOrbit(OfOrbit::Canonicalize)),
        (b"with_index", []) => Some(Ask::OfOrbit(OfOrbit::WithIndex)),
        (b"at", [index]) => Some(Ask::OfOrbit(OfOrbit::At(*index))),
        (b"orbit_list", [bytes]) => Some(Ask::OfOrbit(OfOrbit::List(*bytes))),
        (b"table", [places]) => Some(Ask::OfModes(OfModes::Table(*places))),
        (b"counter", [index, places]) => fills(Filling::Counter(*index), *places),
        (b"with_shift", [places]) => fills(Filling::WithShift, *places),
        (b"sector", [places]) => fills(Filling::Sector, *places),
        (b"beside", [places]) => fills(Filling::Beside, *places),
        (b"phase", [entry]) => Some(Ask::Phase(*entry)),
        _ => on_rows(name, numbers),
    }
}

fn fills<'a>(call: Filling, places: usize) -> Option<Ask<'a>> {
    Some(Ask::Filled(Filled { call, places }))
}

// What asks of the rows of a sum.
fn on_rows<'a>(name: &[u8], numbers: &[usize]) -> Option<Ask<'a>> {
    match name {
        b"sum" => Some(Ask::Sum(all_lists(numbers)?)),
        b"project" => Some(Ask::Project(all_lists(numbers)?)),
        b"words" => Some(Ask::Words(word_lists(numbers)?)),
        b"sector_words" => Some(Ask::SectorWords(sector_lists(numbers)?)),
        b"sum_at" => Some(Ask::Sum(printed_lists(numbers)?)),
        b"project_at" => Some(Ask::Project(printed_lists(numbers)?)),
        b"words_at" => Some(Ask::Words(printed_lists(numbers)?)),
        b"sector_words_at" => Some(Ask::SectorWords(printed_lists(numbers)?)),
        _ => None,
    }
}

// Of the rows that there are, or of five lengths.
fn all_lists(numbers: &[usize]) -> Option<Lists> {
    match numbers {
        [] => Some(Lists::of_rows(0, 0)),
        [words, coefficients, representatives, first, second] => {
            Some(Lists::of_lengths(Lengths {
                words: *words,
                coefficients: *coefficients,
                representatives: *representatives,
                first: *first,
                second: *second,
            }))
        }
        _ => None,
    }
}

// The same without coefficients and the last list.
fn word_lists(numbers: &[usize]) -> Option<Lists> {
    match numbers {
        [] => Some(Lists::of_rows(0, 0)),
        [words, representatives, indices] => {
            all_lists(&[*words, 0, *representatives, *indices, 0])
        }
        _ => None,
    }
}

// The same without coefficients.
fn sector_lists(numbers: &[usize]) -> Option<Lists> {
    match numbers {
        [] => Some(Lists::of_rows(0, 0)),
        [words, representatives, indices, sizes] => {
            all_lists(&[*words, 0, *representatives, *indices, *sizes])
        }
        _ => None,
    }
}

// Of the rows that there are, by the rows that are printed.
fn printed_lists(numbers: &[usize]) -> Option<Lists> {
    match numbers {
        [from, to] => Some(Lists::of_rows(*from, *to)),
        _ => None,
    }
}
