// What is in force between lines.
use case_calls::InForce;
use case_calls::modes::{MODE_ROOM, Modes};
use case_calls::words::Word;
use case_text::rows::Rows;
use group::Group;
use orbit::Walk;
use pauli_word::WORD_BYTES;
use permutation::{MAX_GENERATORS, TARGET_PLACES};
use phases::PhaseTable;
use std::alloc::Global;

#[derive(Drop)]
pub struct State {
    pub group: Group,
    pub word: Word,
    pub modes: Modes,
    pub walk: Walk,
    // The table that sums are projected with.
    pub phases: PhaseTable,
    pub rows: Rows,
}

impl State {
    // Nothing in force: all is zero, and the phase table is the constant one.
    pub fn new(alloc: Global) -> State {
        let group = Group {
            sites: 0,
            generators: 0,
            orders: [0u32; MAX_GENERATORS],
            targets: [0u16; TARGET_PLACES],
        };
        State {
            group,
            word: Word::new(0, &[]),
            modes: Modes {
                list: [0i32; MODE_ROOM],
                count: 0,
            },
            walk: Walk {
                group,
                word: [0u8; WORD_BYTES],
                index: 0,
            },
            phases: phases::phase_table(),
            rows: Rows::new(alloc),
        }
    }

    // What is in force for a call.
    pub fn in_force(&self) -> InForce<'_> {
        InForce {
            group: self.group.lent(),
            n: self.word.n,
            word: self.word.front(),
            modes: self.modes.front(),
        }
    }
}
