// The phases of a turn in 720 steps, as whole numbers: cosine and sine of each step in units of 2^-30, rounded to the nearest whole number; and
// the test of a table of any origin.
#![tactic(auto)]

mod entries;
mod integers;
mod numbers;
mod rules;

ghost use Rattle.std.specs.Prelude.{◌≡◌};
ghost use Rattle.phases.specs.Table.{phase_table};
ghost use Rattle.phases.specs.Rules.{passes};

// The steps of a turn.
pub const PHASES: usize = 720;

// The steps of a quarter turn.
pub const QUARTER: usize = 180;

// The number that stands for 1: 2^30.
pub const UNIT: i64 = 1073741824;

// How far products may be off, in units of 2^-60: 2^31.
pub const SLACK: i64 = 2147483648;

// Entry j of the two lists is the phase of j steps: its cosine and its sine, in units of 2^-30.
#[derive(Clone, Copy)]
pub struct PhaseTable {
    pub cosines: [i64; PHASES],
    pub sines: [i64; PHASES],
}

// The constant table.
pub fn phase_table() -> PhaseTable
    ensures { result ≡ phase_table }
{
    PhaseTable {
        cosines: numbers::COSINES,
        sines: numbers::SINES,
    }
}

// Whether a table has its numbers in -2^30 .. 2^30 and keeps the rules: entry 0 is (2^30, 0); the entry a quarter turn on is the entry turned;
// in the first quarter the cosine falls and the sine rises; each entry times entry 1 is near the next one; each entry has length near 1.
pub fn passes(table: PhaseTable) -> bool
    ensures { result ≡ passes table }
{
    let cosines = table.cosines;
    let sines = table.sines;
    rules::lists_pass(&cosines, &sines)
}
