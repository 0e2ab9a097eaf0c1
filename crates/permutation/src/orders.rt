// The exact order of a permutation of sites: all cycle lengths first, equal ones struck out, then the common multiple of those left.
ghost use Rattle.std.specs.Prelude.{◌≡◌, ◌⊎◌, ℕ, ◌≤◌, ◌<◌, length, get_or, take};
ghost use Rattle.action.specs.Lists.{Member};
ghost use Rattle.action.specs.Permutation.{Permutes, cycle_length};
ghost use Rattle.outcome.specs.Outcome.{outcome_of};
ghost use Rattle.pauli_word.specs.Limits.{max_sites};
ghost use Rattle.permutation.specs.Lengths.{Marked, length_marks, marked_within, multiple_outcome};
ghost use Rattle.permutation.specs.Parts.{exact_outcome};

use crate::inner::lcm;
use crate::{MAX_DECLARED, MAX_LENGTHS};
use outcome::Refusal;
use pauli_word::MAX_SITES;

// The shortest and the longest of cycle lengths.
#[derive(Clone, Copy)]
pub struct Span {
    pub shortest: usize,
    pub longest: usize,
}

// The length of the cycle through start, whose sites are marked in seen.
pub fn mark_cycle(perm: &[u16], start: usize, seen: &mut [u8]) -> usize
    requires permutes { Permutes (length perm.now) perm.now }
    requires start_in_bounds { start < length perm.now }
    requires perm_in_bounds { length perm.now ≤ length seen.old }
    ensures length { result ≡ cycle_length perm.now start }
    ensures marked { Marked perm.now start result seen.old seen.new }
{
    seen[start] = 1;
    let mut q = perm[start] as usize;
    let mut steps = 1;
    // A while: a cycle ends where it began.
    while q != start {
        seen[q] = 1;
        q = perm[q] as usize;
        steps += 1;
    }
    steps
}

// The lesser of two numbers.
pub fn lesser(a: usize, b: usize) -> usize
    ensures { (result ≤ a) × (result ≤ b) × ((result ≡ a) ⊎ (result ≡ b)) }
{
    if a < b { a } else { b }
}

// The greater of two numbers.
pub fn greater(a: usize, b: usize) -> usize
    ensures { (a ≤ result) × (b ≤ result) × ((result ≡ a) ⊎ (result ≡ b)) }
{
    if a < b { b } else { a }
}

// All cycle lengths: each cycle is walked once, until all sites are, and its length l marked at place l - 1. All marks are 0 before. Answers with
// the shortest and the longest.
pub fn cycle_lengths(perm: &[u16], marks: &mut [u8]) -> Span
    requires permutes { (Permutes (length perm.now) perm.now) × (length perm.now ≤ max_sites) × (length perm.now ≤ length marks.old) }
    requires by_index { (l : ℕ) → get_or marks.old l 0 ≡ 0 }
    ensures marks { marks.new ≡ length_marks (length marks.old) perm.now }
    ensures inside { (0 < result.shortest) × (result.longest ≤ length perm.now) }
    ensures span { (q : ℕ) → q < length perm.now → (result.shortest ≤ cycle_length perm.now q) × (cycle_length perm.now q ≤ result.longest) }
{
    let mut seen = [0u8; MAX_SITES];
    let mut shortest = MAX_SITES;
    let mut longest = 0;
    let mut walked = 0;
    let mut q = 0;
    // A while: it ends when all sites are walked, mostly before the last one is looked at.
    while walked < perm.len() {
        if seen[q] != 1 {
            let length = mark_cycle(perm, q, &mut seen);
            marks[length - 1] = 1;
            shortest = lesser(shortest, length);
            longest = greater(longest, length);
            walked += length;
        }
        q += 1;
    }
    Span { shortest, longest }
}

// Equal ones struck out: each marked length once, rising, in the first places of left. Answers with how many there are.
pub fn strike_equal(marks: &[u8], span: Span, left: &mut [usize]) -> usize
    requires shortest_nonzero { (0 < span.shortest) × (span.longest ≤ length marks.now) }
    requires marks_in_bounds { length (marked_within span.shortest span.longest marks.now) ≤ length left.old }
    ensures count { result ≡ length (marked_within span.shortest span.longest marks.now) }
    ensures left { take result left.new ≡ marked_within span.shortest span.longest marks.now }
{
    let mut count = 0;
    for length in span.shortest..span.longest + 1 {
        if marks[length - 1] == 1 {
            left[count] = length;
            count += 1;
        }
    }
    count
}

// The common multiple of those left, or 9.
pub fn common_multiple(generator: usize, lengths: &[usize]) -> Result<usize, Refusal>
    requires { (l : ℕ) → Member l lengths.now → (0 < l) × (l ≤ max_sites) }
    ensures { outcome_of result ≡ multiple_outcome generator lengths.now }
{
    let mut order: u64 = 1;
    for length in lengths {
        order = lcm(order, *length as u64);
        if MAX_DECLARED < order {
            return Err(Refusal::PermutationOrderOverflow(generator));
        }
    }
    Ok(order as usize)
}

// The exact order of a generator's permutation, or 9: all cycle lengths, equal ones struck out, the common multiple of those left.
pub fn exact_order(generator: usize, perm: &[u16]) -> Result<usize, Refusal>
    requires { (Permutes (length perm.now) perm.now) × (length perm.now ≤ max_sites) }
    ensures { outcome_of result ≡ exact_outcome generator perm.now }
{
    let mut marks = [0u8; MAX_SITES];
    let span = cycle_lengths(perm, &mut marks);
    let mut left = [0usize; MAX_LENGTHS];
    let count = strike_equal(&marks, span, &mut left);
    common_multiple(generator, &left[0..count])
}
