// Planes, block after block: each block leaves of the turns in question those that give its least bits. Whoever calls a function here owes its `requires`.
ghost use Rattle.std.specs.Prelude.{◌≡◌, ◌%◌, ◌≤◌, ◌<◌};
ghost use Rattle.pauli_word.specs.Limits.{max_sites};
ghost use Rattle.packed.specs.Packed.{bit_of};
ghost use Rattle.cyclic.specs.Narrowing.{Narrowed};

use crate::{Turn, scan};

// Of the turns by start and every step after it, those that give the least of a plane's bits, turned inside blocks.
pub fn refine(ws: &[u64], block: usize, sites: usize, turn: Turn) -> Turn
    requires block_nonzero { (0 < block) × (sites % block ≡ 0) × (sites ≤ max_sites) }
    requires start_lt_step { (turn.start < turn.step) × (block % turn.step ≡ 0) }
    ensures { Narrowed sites block (bit_of ws.now) turn.start turn.step result.start result.step }
{
    let mut left = turn;
    let mut base: usize = 0;
    // A while: with `step_by` the last turn leaves without the fact that the blocks are at their end, and the proof did not close.
    while base < sites {
        let step = left.step;
        if step == block {
            return left;
        }
        left = scan::narrow(ws, base, block, left, block / step);
        base += block;
    }
    left
}
