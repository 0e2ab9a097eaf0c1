// The turns of a word inside its blocks that give the least word, found by scans for the least rotation, and the least word by them. Whoever calls a
// function here owes its `requires`.
#![tactic(auto)]

pub mod least;
pub mod refine;
pub mod scan;

ghost use Rattle.std.specs.Prelude.{◌≡◌, ◌%◌, ◌≤◌, ◌<◌};
ghost use Rattle.pauli_word.specs.Limits.{max_sites};
ghost use Rattle.packed.specs.Packed.{letters_at};
ghost use Rattle.cyclic.specs.Cyclic.{Turns};

// Turns: by start, and by every step after it.
#[derive(Clone, Copy)]
pub struct Turn {
    pub start: usize,
    pub step: usize,
}

// The turns below block that give the least word, of the letters that two planes hold: the X plane tells them apart, and the Z plane those that it leaves.
pub fn least_turns(x: &[u64], z: &[u64], block: usize, sites: usize) -> Turn
    requires { (0 < block) × (sites % block ≡ 0) × (sites ≤ max_sites) }
    ensures { Turns block (letters_at sites x.now z.now) result.start result.step }
{
    let all = Turn { start: 0, step: 1 };
    let left = refine::refine(x, block, sites, all);
    refine::refine(z, block, sites, left)
}
