// What calls come to, as numbers: 0 or the number of a rule, and what the rule names.
ghost use Rattle.std.specs.Prelude.{◌≡◌, false, [], ◌∷◌};
ghost use Rattle.outcome.specs.Outcome.{rule_number, rule_values, outcome_of, or_else, itself};
ghost use Rattle.group.specs.Value.{no_group};
ghost use Rattle.row_lists.specs.Rows.{no_word};
ghost use Rattle.phases.specs.Rules.{table_of};
ghost use Rattle.c_api.specs.Told.{placed, number_of, values_of, given_word, given_index, none_given, sector_word, sector_size, in_sector, sector_index, kept_in, dropped_in};

use crate::VALUES;
use group::Group;
use momentum::Sector;
use orbit::Entry;
use outcome::Refusal;
use pauli_word::WORD_BYTES;
use permutation::{MAX_GENERATORS, TARGET_PLACES};
use phases::{PHASES, PhaseTable};
use project::Projection;

// The phase table of two lists.
pub fn table_in(cosines: &[i64; PHASES], sines: &[i64; PHASES]) -> PhaseTable
    ensures { result ≡ table_of cosines.now sines.now }
{
    PhaseTable {
        cosines: *cosines,
        sines: *sines,
    }
}

// A phase table in its two lists.
pub fn table(value: PhaseTable, cosines: &mut [i64; PHASES], sines: &mut [i64; PHASES])
    ensures cosines { cosines.new ≡ value.cosines }
    ensures sines { sines.new ≡ value.sines }
{
    let along = value.cosines;
    *cosines = along;
    let across = value.sines;
    *sines = across;
}

// What a rule names, in its places, zeros after it.
fn rule_values(why: Refusal) -> [usize; VALUES]
    ensures { result ≡ placed (rule_values why) }
{
    match why {
        Refusal::TooManySites => [0, 0, 0, 0],
        Refusal::ListEndsInside => [0, 0, 0, 0],
        Refusal::TooManyGenerators => [0, 0, 0, 0],
        Refusal::LengthMismatch(a, b) => [a, b, 0, 0],
        Refusal::PermutationLength(a, b) => [a, b, 0, 0],
        Refusal::TargetOutOfRange(a, b) => [a, b, 0, 0],
        Refusal::DuplicateTarget(a, b) => [a, b, 0, 0],
        Refusal::ZeroOrder(a) => [a, 0, 0, 0],
        Refusal::PermutationOrderOverflow(a) => [a, 0, 0, 0],
        Refusal::OrderMismatch(a, b, c) => [a, b, c, 0],
        Refusal::NonCommuting(a, b) => [a, b, 0, 0],
        Refusal::GroupOrderOverflow => [0, 0, 0, 0],
        Refusal::GroupOrderLimit => [0, 0, 0, 0],
        Refusal::InvalidValue => [0, 0, 0, 0],
        Refusal::WordLength => [0, 0, 0, 0],
        Refusal::OtherSites => [0, 0, 0, 0],
        Refusal::BitAboveSites => [0, 0, 0, 0],
        Refusal::RowBitAboveSites(a) => [a, 0, 0, 0],
        Refusal::ModeCount => [0, 0, 0, 0],
        Refusal::IndexRange => [0, 0, 0, 0],
        Refusal::CounterLength => [0, 0, 0, 0],
        Refusal::ListLength => [0, 0, 0, 0],
        Refusal::SumLists => [0, 0, 0, 0],
        Refusal::TooManyRows => [0, 0, 0, 0],
        Refusal::NotFinite(a) => [a, 0, 0, 0],
        Refusal::SumNotFinite(a) => [a, 0, 0, 0],
        Refusal::ZeroSide => [0, 0, 0, 0],
        Refusal::SidesTooLarge => [0, 0, 0, 0],
        Refusal::TooManyLetters => [0, 0, 0, 0],
        Refusal::NotALetter(a) => [a, 0, 0, 0],
        Refusal::SheetLength => [0, 0, 0, 0],
        Refusal::LineForm => [0, 0, 0, 0],
        Refusal::PhaseModulus => [0, 0, 0, 0],
        Refusal::CoefficientRange(a) => [a, 0, 0, 0],
        Refusal::PhaseForm => [0, 0, 0, 0],
        Refusal::PhaseRule => [0, 0, 0, 0],
        Refusal::OldWordSites => [0, 0, 0, 0],
        Refusal::DigitRange => [0, 0, 0, 0],
    }
}

// A refusal: its number, and what its rule names.
pub fn refused(why: Refusal, values: &mut [usize; VALUES]) -> usize
    ensures number { result ≡ rule_number why }
    ensures values { values.new ≡ placed (rule_values why) }
{
    *values = rule_values(why);
    outcome::rule_number(why)
}

// A refusal at a line of a sheet: its number, and the line before what its rule names.
pub fn refused_at(why: Refusal, line: usize, values: &mut [usize; VALUES]) -> usize
    ensures number { result ≡ rule_number why }
    ensures values { values.new ≡ placed (line ∷ rule_values why) }
{
    let named = rule_values(why);
    *values = [line, named[0], named[1], named[2]];
    outcome::rule_number(why)
}

// An answer: 0, and zeros.
pub fn answered(values: &mut [usize; VALUES]) -> usize
    ensures number { result ≡ 0 }
    ensures values { values.new ≡ placed [] }
{
    *values = [0; VALUES];
    0
}

// What a call comes to, whatever its answer is.
pub fn verdict<T>(answer: &Result<T, Refusal>, values: &mut [usize; VALUES]) -> usize
    ensures number { result ≡ number_of (outcome_of answer.now) }
    ensures values { values.new ≡ values_of (outcome_of answer.now) }
{
    match *answer {
        Ok(_) => answered(values),
        Err(why) => refused(why, values),
    }
}

// An answer in its place, where something else stands beside a refusal.
pub fn value<T: Copy>(
    answer: Result<T, Refusal>,
    beside: T,
    place: &mut T,
    values: &mut [usize; VALUES],
) -> usize
    ensures number { result ≡ number_of (outcome_of answer) }
    ensures place { place.new ≡ or_else itself beside (outcome_of answer) }
    ensures values { values.new ≡ values_of (outcome_of answer) }
{
    match answer {
        Ok(given) => {
            *place = given;
            answered(values)
        }
        Err(why) => {
            *place = beside;
            refused(why, values)
        }
    }
}

// A number, or 0 in its place beside a refusal.
pub fn number(
    answer: Result<usize, Refusal>,
    place: &mut usize,
    values: &mut [usize; VALUES],
) -> usize
    ensures number { result ≡ number_of (outcome_of answer) }
    ensures value { place.new ≡ or_else itself 0 (outcome_of answer) }
    ensures values { values.new ≡ values_of (outcome_of answer) }
{
    value(answer, 0, place, values)
}

// A word, or zeros in its place beside a refusal.
pub fn word(
    answer: Result<[u8; WORD_BYTES], Refusal>,
    place: &mut [u8; WORD_BYTES],
    values: &mut [usize; VALUES],
) -> usize
    ensures number { result ≡ number_of (outcome_of answer) }
    ensures word { place.new ≡ or_else itself no_word (outcome_of answer) }
    ensures values { values.new ≡ values_of (outcome_of answer) }
{
    match answer {
        Ok(bytes) => {
            *place = bytes;
            answered(values)
        }
        Err(why) => {
            *place = [0u8; WORD_BYTES];
            refused(why, values)
        }
    }
}

// A group in its four parts, which beside a refusal are no group's.
pub fn made(
    built: Result<Group, Refusal>,
    sites: &mut usize,
    generators: &mut usize,
    orders: &mut [u32; MAX_GENERATORS],
    targets: &mut [u16; TARGET_PLACES],
    values: &mut [usize; VALUES],
) -> usize
    ensures number { result ≡ number_of (outcome_of built) }
    ensures sites { sites.new ≡ (or_else itself no_group (outcome_of built)).sites }
    ensures generators { generators.new ≡ (or_else itself no_group (outcome_of built)).generators }
    ensures orders { orders.new ≡ (or_else itself no_group (outcome_of built)).orders }
    ensures targets { targets.new ≡ (or_else itself no_group (outcome_of built)).targets }
    ensures values { values.new ≡ values_of (outcome_of built) }
{
    match built {
        Ok(group) => {
            parts(&group, sites, generators, orders, targets);
            answered(values)
        }
        Err(why) => {
            let beside = group::inner::no_group();
            parts(&beside, sites, generators, orders, targets);
            refused(why, values)
        }
    }
}

// The four parts of a group, in their places.
fn parts(
    group: &Group,
    sites: &mut usize,
    generators: &mut usize,
    orders: &mut [u32; MAX_GENERATORS],
    targets: &mut [u16; TARGET_PLACES],
)
    ensures sites { sites.new ≡ group.now.sites }
    ensures generators { generators.new ≡ group.now.generators }
    ensures orders { orders.new ≡ group.now.orders }
    ensures targets { targets.new ≡ group.now.targets }
{
    *sites = group.sites;
    *generators = group.generators;
    *orders = group.orders;
    *targets = group.targets;
}

// A step of a walk: its entry, or that the walk is over.
pub fn step(
    answer: Result<Option<Entry>, Refusal>,
    word: &mut [u8; WORD_BYTES],
    entry: &mut usize,
    finished: &mut bool,
    values: &mut [usize; VALUES],
) -> usize
    ensures number { result ≡ number_of (outcome_of answer) }
    ensures word { word.new ≡ or_else given_word no_word (outcome_of answer) }
    ensures entry { entry.new ≡ or_else given_index 0 (outcome_of answer) }
    ensures finished { finished.new ≡ or_else none_given false (outcome_of answer) }
    ensures values { values.new ≡ values_of (outcome_of answer) }
{
    *entry = 0;
    *finished = false;
    match answer {
        Ok(Some(given)) => {
            let bytes = given.word;
            *word = bytes;
            *entry = given.index;
            answered(values)
        }
        Ok(None) => {
            *word = [0u8; WORD_BYTES];
            *finished = true;
            answered(values)
        }
        Err(why) => {
            *word = [0u8; WORD_BYTES];
            refused(why, values)
        }
    }
}

// A word in a sector: the least word and the orbit size of one that is kept, and the index that drops one that is not.
pub fn sector(
    answer: Result<Sector, Refusal>,
    word: &mut [u8; WORD_BYTES],
    size: &mut usize,
    kept: &mut bool,
    dropped_by: &mut usize,
    values: &mut [usize; VALUES],
) -> usize
    ensures number { result ≡ number_of (outcome_of answer) }
    ensures word { word.new ≡ or_else sector_word no_word (outcome_of answer) }
    ensures size { size.new ≡ or_else sector_size 0 (outcome_of answer) }
    ensures kept { kept.new ≡ or_else in_sector false (outcome_of answer) }
    ensures index { dropped_by.new ≡ or_else sector_index 0 (outcome_of answer) }
    ensures values { values.new ≡ values_of (outcome_of answer) }
{
    *size = 0;
    *kept = false;
    *dropped_by = 0;
    match answer {
        Ok(Sector::Kept(found)) => {
            let bytes = found.word;
            *word = bytes;
            *size = found.size;
            *kept = true;
            answered(values)
        }
        Ok(Sector::Dropped(index)) => {
            *word = [0u8; WORD_BYTES];
            *dropped_by = index;
            answered(values)
        }
        Err(why) => {
            *word = [0u8; WORD_BYTES];
            refused(why, values)
        }
    }
}

// A projected sum: how many rows are kept, and how many dropped.
pub fn projection(
    answer: Result<Projection, Refusal>,
    kept: &mut usize,
    dropped: &mut usize,
    values: &mut [usize; VALUES],
) -> usize
    ensures number { result ≡ number_of (outcome_of answer) }
    ensures kept { kept.new ≡ or_else kept_in 0 (outcome_of answer) }
    ensures dropped { dropped.new ≡ or_else dropped_in 0 (outcome_of answer) }
    ensures values { values.new ≡ values_of (outcome_of answer) }
{
    match answer {
        Ok(rows) => {
            *kept = rows.kept;
            *dropped = rows.dropped;
            answered(values)
        }
        Err(why) => {
            *kept = 0;
            *dropped = 0;
            refused(why, values)
        }
    }
}
