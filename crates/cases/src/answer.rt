// The answer to a line.
use crate::forge;
use crate::state::State;
use case_calls::{counters, groups, modes, orbits, words};
use case_rows::{folds, sheets};
use case_text::commands;
use case_text::commands::{Ask, Command, Put};
use lines::Append;
use std::alloc::AllocError;

// Prints a line for a line.
pub fn line(out: &mut Vec<u8>, state: &mut State, line: &[u8]) -> Result<(), AllocError> {
    if line.is_empty() || line.starts_with(b"#") {
        out.write_all(line)?;
    } else {
        match commands::read(line) {
            Some(command) => answer(out, state, command)?,
            None => write!(out, "?")?,
        }
    }
    write!(out, "\n")
}

fn answer(out: &mut Vec<u8>, state: &mut State, command: Command<'_>) -> Result<(), AllocError> {
    match command {
        Command::Put(line) => put(out, state, line),
        Command::Ask(line) => ask(out, state, line),
    }
}

fn put(out: &mut Vec<u8>, state: &mut State, line: Put<'_>) -> Result<(), AllocError> {
    match line {
        Put::Group(text) => groups::read(out, &mut state.group, text),
        Put::Lattice(lattice) => groups::put(out, &mut state.group, groups::of_lattice(lattice)),
        Put::Set(text) => set(out, forge::set(state, text)),
        Put::Word(text) => words::read(out, &mut state.word, text),
        Put::Bytes(text) => words::put(out, &mut state.word, text),
        Put::Old => words::make_old(out, &mut state.word),
        Put::Modes(text) => modes::put(out, &mut state.modes, text),
        Put::Orbit => {
            let State {
                group,
                word,
                walk,
                ..
            } = state;
            orbits::begin(out, walk, group, word.n, word.front())
        }
        Put::Next(count) => orbits::steps(out, &mut state.walk, state.word.n, count),
        Put::Rows(line) => {
            let State { word, rows, .. } = state;
            set(out, rows.put(word.front(), line)?)
        }
        Put::PhaseTable => {
            state.phases = phases::phase_table();
            set(out, Some(()))
        }
        Put::PhaseFile(text) => case_phases::read(out, &mut state.phases, text),
    }
}

// Whether something was put in force.
fn set(out: &mut Vec<u8>, done: Option<()>) -> Result<(), AllocError> {
    match done {
        Some(()) => write!(out, "set"),
        None => write!(out, "?"),
    }
}

fn ask(out: &mut Vec<u8>, state: &State, line: Ask<'_>) -> Result<(), AllocError> {
    let given = state.in_force();
    match line {
        Ask::OfGroup(call) => groups::answer(out, &given.group, call),
        Ask::OfWord(call) => words::answer(out, given.n, given.word, call),
        Ask::OfOrbit(call) => orbits::answer(out, &given, call),
        Ask::OfModes(call) => modes::answer(out, &given.group, given.modes, call),
        Ask::Filled(filled) => counters::answer(out, &given, filled),
        Ask::Sheet(sheet) => sheets::answer(out, sheet),
        Ask::Sum(lists) => folds::fold(out, &given, &state.rows, &lists),
        Ask::Project(lists) => {
            case_projections::project(out, &given, state.phases, &state.rows, &lists)
        }
        Ask::Words(lists) => case_words::canonicalize(out, &given, &state.rows, &lists),
        Ask::SectorWords(lists) => case_words::in_sector(out, &given, &state.rows, &lists),
        Ask::Phase(entry) => case_phases::entry(out, &state.phases, entry),
    }
}
