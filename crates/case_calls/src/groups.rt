// Groups: made, and what their calls answer.
use crate::modes::MODE_ROOM;
use case_text::commands::{Lattice, OfGroup};
use case_text::{fields, texts};
use group::Group;
use lines::Append;
use outcome::Refusal;
use pauli_word::MAX_SITES;
use permutation::{Lent, MAX_GENERATORS, TARGET_PLACES};
use std::alloc::AllocError;

// The most entries of a generator list, and the most orders.
const LIST_ROOM: usize = 2 * TARGET_PLACES;

const ORDER_ROOM: usize = 4 * MAX_GENERATORS;

// Puts a group in force; after a refusal one that every call refuses.
pub fn put(
    out: &mut Vec<u8>,
    group: &mut Group,
    made: Result<Group, Refusal>,
) -> Result<(), AllocError> {
    match made {
        Ok(accepted) => {
            *group = accepted;
            write!(out, "accepted")
        }
        Err(why) => {
            *group = group::inner::no_group();
            lines::refusal(out, why)
        }
    }
}

pub fn of_lattice(lattice: Lattice) -> Result<Group, Refusal> {
    match lattice {
        Lattice::Chain(n) => group::chain_1d(n),
        Lattice::Ladder(l, legs) => group::ladder(l, legs),
        Lattice::Torus2(x, y) => group::torus_2d(x, y),
        Lattice::Torus3(x, y, z) => group::torus_3d(x, y, z),
    }
}

// ` N t t .. / o o ..`: a site count, a generator list and orders. The group before stays in force where the text has another form.
pub fn read(out: &mut Vec<u8>, group: &mut Group, text: &[u8]) -> Result<(), AllocError> {
    match of_text(text) {
        Some(made) => put(out, group, made),
        None => write!(out, "?"),
    }
}

fn of_text(text: &[u8]) -> Option<Result<Group, Refusal>> {
    let (generators, orders) = texts::split_once(text, b'/')?;
    let (_, generators) = generators.split_last()?;
    let (sites, generators) = fields::first(generators)?;
    let mut list = [0u32; LIST_ROOM];
    let mut order_list = [0u32; ORDER_ROOM];
    Some(group::try_from_generators(
        usize::try_from(fields::number(sites)?).ok()?,
        fields::numbers(generators, &mut list)?,
        fields::numbers(orders, &mut order_list)?,
    ))
}

// What the calls on a group answer, and the group itself.
pub fn answer(out: &mut Vec<u8>, group: &Lent<'_>, call: OfGroup<'_>) -> Result<(), AllocError> {
    match call {
        OfGroup::Order => lines::number(out, group::order(group)),
        OfGroup::Modulus => lines::number(out, group::phase_modulus(group)),
        OfGroup::Invert(index) => lines::number(out, group::invert_index(group, index)),
        OfGroup::Index(digits) => index_of(out, group, digits),
        OfGroup::Targets => targets(out, group),
    }
}

// ` d d ..`.
fn index_of(out: &mut Vec<u8>, group: &Lent<'_>, text: &[u8]) -> Result<(), AllocError> {
    let mut digits = [0u32; MODE_ROOM];
    match fields::numbers(text, &mut digits) {
        Some(counter) => lines::number(out, group::index_from_counter(group, counter)),
        None => write!(out, "?"),
    }
}

// Where each generator sends the sites, of a value that has places for them.
fn targets(out: &mut Vec<u8>, group: &Lent<'_>) -> Result<(), AllocError> {
    if MAX_GENERATORS < group.generators || MAX_SITES < group.sites {
        return write!(out, "?");
    }
    let table = group.targets;
    let generators = table.chunks_exact(MAX_SITES).take(group.generators);
    for (g, targets) in generators.enumerate() {
        if 0 < g {
            write!(out, " ")?;
        }
        write!(out, "/")?;
        lines::numbers(out, targets.get(..group.sites).unwrap_or(targets))?;
    }
    Ok(())
}
