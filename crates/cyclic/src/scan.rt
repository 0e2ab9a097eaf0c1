// One block of a plane: of the turns in question, those that give its least bits. A symbol is the run of bits between two such turns, and the least
// rotation of the symbols, with its period, comes from one scan. Whoever calls a function here owes its `requires`.
ghost use Rattle.std.specs.Prelude.{◌≡◌, ◌+◌, ◌*◌, ◌≤◌, ◌<◌, ◌%◌, min};
ghost use Rattle.pauli_word.specs.Limits.{max_sites};
ghost use Rattle.packed.specs.Packed.{bit_of, Compared};
ghost use Rattle.cyclic.specs.Narrowing.{round_at, symbol_at, parted, next_scan, period_of, Narrowed};

use crate::Turn;
use packed::WORD_BITS;
use std::cmp::Ordering;

// Two places of a ring of symbols, and how far their rotations are known to agree.
#[derive(Clone, Copy)]
pub struct Scan {
    pub i: usize,
    pub j: usize,
    pub k: usize,
}

// Place p of a ring of m, for p up to twice round.
fn round(p: usize, m: usize) -> usize
    requires { p < m + m }
    ensures { result ≡ p % m }
{
    if p < m { p } else { p - m }
}

// Bit p of the block at base, read round, for p up to twice round.
pub fn bit(ws: &[u64], base: usize, block: usize, p: usize) -> bool
    requires block_bound { base + block ≤ max_sites }
    requires p_bound { p < block + block }
    ensures { result ≡ round_at ws.now base block p }
{
    let q = base + round(p, block);
    let at = q / WORD_BITS;
    if at < ws.len() {
        (ws[at] >> (q % WORD_BITS)) % 2 == 1
    } else {
        false
    }
}

// How the symbol of step bits from p on stands to that from q on.
pub fn cmp(ws: &[u64], base: usize, block: usize, step: usize, p: usize, q: usize) -> Ordering
    requires block_bound { base + block ≤ max_sites }
    requires step_bound { p + step ≤ block + block }
    requires step_bound_2 { q + step ≤ block + block }
    ensures { Compared result step (λ y. round_at ws.now base block (p + y)) (λ y. round_at ws.now base block (q + y)) }
{
    for y in 0..step {
        let a = bit(ws, base, block, p + y);
        let b = bit(ws, base, block, q + y);
        if a != b {
            if a {
                return Ordering::Greater;
            }
            return Ordering::Less;
        }
    }
    Ordering::Equal
}

// The scan anew from i and j, or from past j where the two met.
fn anew(i: usize, j: usize) -> Scan
    requires { j ≤ max_sites + max_sites + 1 }
    ensures { result ≡ parted i j }
{
    if i == j {
        Scan { i, j: j + 1, k: 0 }
    } else {
        Scan { i, j, k: 0 }
    }
}

// The scan after a comparison: the places of the greater rotation are passed, up to where it was seen.
fn next(order: Ordering, s: Scan) -> Scan
    requires { (s.i ≤ max_sites) × (s.j ≤ max_sites) × (s.k ≤ max_sites) }
    ensures { result ≡ next_scan order s }
{
    match order {
        Ordering::Less => anew(s.i, s.j + s.k + 1),
        Ordering::Equal => Scan {
            i: s.i,
            j: s.j,
            k: s.k + 1,
        },
        Ordering::Greater => anew(s.i + s.k + 1, s.j),
    }
}

// How the symbols k on from places i and j compare.
fn compare(ws: &[u64], base: usize, block: usize, turn: Turn, m: usize, s: Scan) -> Ordering
    requires block_bound { base + block ≤ max_sites }
    requires start_lt_step { (turn.start < turn.step) × (turn.step * m ≡ block) }
    requires i_lt_m { (s.i < m) × (s.j < m) × (s.k < m) }
    ensures { Compared result turn.step (symbol_at ws.now base block turn.start turn.step (s.i + s.k)) (symbol_at ws.now base block turn.start turn.step (s.j + s.k)) }
{
    let start = turn.start;
    let step = turn.step;
    let a = round(s.i + s.k, m);
    let b = round(s.j + s.k, m);
    cmp(ws, base, block, step, start + a * step, start + b * step)
}

// The place of a scan that is not passed: the lesser.
fn first_of(s: Scan) -> usize
    ensures { result ≡ min s.i s.j }
{
    if s.i < s.j { s.i } else { s.j }
}

// The period that a scan of m symbols came to.
fn period_of(m: usize, s: Scan) -> usize
    ensures { result ≡ period_of m s }
{
    if s.k < m {
        return m;
    }
    if s.i < s.j { s.j - s.i } else { s.i - s.j }
}

// Of the turns by start and every step after it, m in all, those that give the least bits of the block at base.
pub fn narrow(ws: &[u64], base: usize, block: usize, turn: Turn, m: usize) -> Turn
    requires block_bound { base + block ≤ max_sites }
    requires start_lt_step { (turn.start < turn.step) × (turn.step * m ≡ block) × (0 < m) }
    ensures { Narrowed block block (λ y. bit_of ws.now (base + y)) turn.start turn.step result.start result.step }
{
    let mut s = Scan { i: 0, j: 1, k: 0 };
    // A while: three places move, each by what was compared.
    while s.i < m && s.j < m && s.k < m {
        let order = compare(ws, base, block, turn, m, s);
        s = next(order, s);
    }
    let first = first_of(s);
    let period = period_of(m, s);
    let start = turn.start;
    let step = turn.step;
    Turn {
        start: start + first * step,
        step: step * period,
    }
}
