// Values that no call gives: numbers written into the group, the word, the walk and the phase table in force.
use crate::state::State;
use case_calls::words::WORD_ROOM;
use case_text::fields;

// The most numbers after a name.
const MOST_NUMBERS: usize = 2;

// A number that is written, after its place where there are several.
#[derive(Clone, Copy)]
enum Forged {
    Sites(usize),
    Generators(usize),
    Order(usize, u32),
    Target(usize, u16),
    N(usize),
    Length(usize),
    Index(usize),
    Cosine(usize, i64),
    Sine(usize, i64),
}

// ` NAME V` or ` NAME I V`. Where the text has another form, or there is no such place, nothing changes.
pub fn set(state: &mut State, text: &[u8]) -> Option<()> {
    let (name, rest) = fields::first(text)?;
    write(state, read(name, rest)?)
}

fn read(name: &[u8], rest: &[u8]) -> Option<Forged> {
    match name {
        b"cosine" => {
            let (place, whole) = entry(rest)?;
            Some(Forged::Cosine(place, whole))
        }
        b"sine" => {
            let (place, whole) = entry(rest)?;
            Some(Forged::Sine(place, whole))
        }
        _ => {
            let mut list = [0usize; MOST_NUMBERS];
            of_numbers(name, fields::numbers(rest, &mut list)?)
        }
    }
}

// ` J V`.
fn entry(text: &[u8]) -> Option<(usize, i64)> {
    let (place, rest) = fields::first(text)?;
    let whole = fields::whole(fields::after_space(rest))?;
    Some((usize::try_from(fields::number(place)?).ok()?, whole))
}

fn of_numbers(name: &[u8], numbers: &[usize]) -> Option<Forged> {
    match (name, numbers) {
        (b"sites", [v]) => Some(Forged::Sites(*v)),
        (b"generators", [v]) => Some(Forged::Generators(*v)),
        (b"order", [g, v]) => Some(Forged::Order(*g, u32::try_from(*v).ok()?)),
        (b"target", [place, v]) => Some(Forged::Target(*place, u16::try_from(*v).ok()?)),
        (b"n", [v]) => Some(Forged::N(*v)),
        (b"length", [v]) => Some(Forged::Length(*v)),
        (b"index", [v]) => Some(Forged::Index(*v)),
        _ => None,
    }
}

// Writes it, if there is such a place.
fn write(state: &mut State, forged: Forged) -> Option<()> {
    match forged {
        Forged::Sites(v) => state.group.sites = v,
        Forged::Generators(v) => state.group.generators = v,
        Forged::Order(g, v) => *state.group.orders.get_mut(g)? = v,
        Forged::Target(place, v) => *state.group.targets.get_mut(place)? = v,
        Forged::N(v) => state.word.n = v,
        Forged::Length(v) => {
            if WORD_ROOM < v {
                return None;
            }
            state.word.length = v;
        }
        Forged::Index(v) => state.walk.index = v,
        Forged::Cosine(j, v) => *state.phases.cosines.get_mut(j)? = v,
        Forged::Sine(j, v) => *state.phases.sines.get_mut(j)? = v,
    }
    Some(())
}
