// What a call comes to: its answer, or a refusal by the number of the first rule broken. Each rule that a call can be refused by is a case of
// `Refusal`, whatever the call, and `rule_number` gives its number.
#![tactic(auto)]

ghost use Rattle.std.specs.Prelude.{◌≡◌};
ghost use Rattle.outcome.specs.Outcome.{rule_number};

// Why a call is refused, in the order of the rules' numbers.
#[derive(Clone, Copy)]
pub enum Refusal {
    // 1: a group or a word of more sites than there may be.
    TooManySites,
    // 2: the generator list ends inside a generator.
    ListEndsInside,
    // 3: more generators than there may be.
    TooManyGenerators,
    // 4: counts of permutations and orders that differ.
    LengthMismatch(usize, usize),
    // 5: a generator, and its length, which is not the site count.
    PermutationLength(usize, usize),
    // 6: a generator, and its target that is not below the site count.
    TargetOutOfRange(usize, usize),
    // 7: a generator, and its target that came before.
    DuplicateTarget(usize, usize),
    // 8: a generator of order 0.
    ZeroOrder(usize),
    // 9: a generator whose exact order exceeds 32 bits.
    PermutationOrderOverflow(usize),
    // 10: a generator, its declared and its exact order.
    OrderMismatch(usize, usize, usize),
    // 11: the first two generators that do not commute.
    NonCommuting(usize, usize),
    // 12: the group order exceeds 64 bits.
    GroupOrderOverflow,
    // 13: the group order exceeds its limit.
    GroupOrderLimit,
    // 14: a group value that no accepted generators give, or a walk value that accepted calls do not reach.
    InvalidValue,
    // 15: a word of another number of bytes than either form has.
    WordLength,
    // 16: a word of another site count than the group's.
    OtherSites,
    // 17: a word bit at or above the site count.
    BitAboveSites,
    // 17, of a row of a sum: the row.
    RowBitAboveSites(usize),
    // 18: not one mode for each generator.
    ModeCount,
    // 19: an index not below the group order.
    IndexRange,
    // 20: not one digit for each generator.
    CounterLength,
    // 21: a lent list of another length than needed.
    ListLength,
    // 22: lists of a sum or of many words that disagree in rows, or a word list of another number of bytes a row.
    SumLists,
    // 23: more rows than there may be.
    TooManyRows,
    // 24: a row whose coefficient is not finite.
    NotFinite(usize),
    // 25: the first row that makes a running sum not finite.
    SumNotFinite(usize),
    // 26: a lattice side 0.
    ZeroSide,
    // 27: sides whose product exceeds the sites that there may be.
    SidesTooLarge,
    // 28: a text word of more letters than there may be sites.
    TooManyLetters,
    // 29: a letter other than I, X, Y, Z, at this position.
    NotALetter(usize),
    // 30: a sheet of too many bytes.
    SheetLength,
    // 31: a sheet line of another form.
    LineForm,
    // 32: a phase modulus that does not divide the entries of a phase table.
    PhaseModulus,
    // 33: a row whose whole coefficient is out of its range.
    CoefficientRange(usize),
    // 34: the file of a phase table that has another form, or too many bytes.
    PhaseForm,
    // 35: a phase table with a number out of its range, or that breaks a rule.
    PhaseRule,
    // 36: a word of the old form with more sites than that form has.
    OldWordSites,
    // 37: a digit not below its generator's order.
    DigitRange,
}

// The number of the rule that a refusal is by.
pub fn rule_number(why: Refusal) -> usize
    ensures { result ≡ rule_number why }
{
    match why {
        Refusal::TooManySites => 1,
        Refusal::ListEndsInside => 2,
        Refusal::TooManyGenerators => 3,
        Refusal::LengthMismatch(_, _) => 4,
        Refusal::PermutationLength(_, _) => 5,
        Refusal::TargetOutOfRange(_, _) => 6,
        Refusal::DuplicateTarget(_, _) => 7,
        Refusal::ZeroOrder(_) => 8,
        Refusal::PermutationOrderOverflow(_) => 9,
        Refusal::OrderMismatch(_, _, _) => 10,
        Refusal::NonCommuting(_, _) => 11,
        Refusal::GroupOrderOverflow => 12,
        Refusal::GroupOrderLimit => 13,
        Refusal::InvalidValue => 14,
        Refusal::WordLength => 15,
        Refusal::OtherSites => 16,
        Refusal::BitAboveSites => 17,
        Refusal::RowBitAboveSites(_) => 17,
        Refusal::ModeCount => 18,
        Refusal::IndexRange => 19,
        Refusal::CounterLength => 20,
        Refusal::ListLength => 21,
        Refusal::SumLists => 22,
        Refusal::TooManyRows => 23,
        Refusal::NotFinite(_) => 24,
        Refusal::SumNotFinite(_) => 25,
        Refusal::ZeroSide => 26,
        Refusal::SidesTooLarge => 27,
        Refusal::TooManyLetters => 28,
        Refusal::NotALetter(_) => 29,
        Refusal::SheetLength => 30,
        Refusal::LineForm => 31,
        Refusal::PhaseModulus => 32,
        Refusal::CoefficientRange(_) => 33,
        Refusal::PhaseForm => 34,
        Refusal::PhaseRule => 35,
        Refusal::OldWordSites => 36,
        Refusal::DigitRange => 37,
    }
}
