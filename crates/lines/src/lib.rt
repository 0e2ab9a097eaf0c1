// What calls come to, as the example programs print it, at the end of a list of bytes. Nothing here ends a line, and each function fails only where
// memory runs out.
#![tactic(auto)]

ghost use Rattle.std.specs.Prelude.{◌≡◌, ◌++◌, IfSome, OnOk};

use itoa::{Buffer, Integer};
use outcome::Refusal;
use pauli_word::{WORD_BYTES, WordText};
use std::alloc::AllocError;
use std::fmt::Display;
use std::io;

// Text put at the end of a list of bytes: what `write!` calls where std's `Write` is not in scope. It fails only where memory runs out.
pub trait Append {
    fn write_all(&mut self, text: &[u8]) -> Result<(), AllocError>;

    fn write_fmt<D: Display + Drop>(&mut self, text: D) -> Result<(), AllocError>;
}

impl Append for Vec<u8> {
    fn write_all(&mut self, text: &[u8]) -> Result<(), AllocError>
        ensures { OnOk result (self.new.items ≡ self.old.items ++ text.now) }
    {
        self.extend_from_slice(text)
    }

    fn write_fmt<D: Display + Drop>(&mut self, text: D) -> Result<(), AllocError>
        ensures { OnOk result (IfSome (D.output text) (λ bytes. self.new.items ≡ self.old.items ++ bytes)) }
    {
        match io::Write::write_fmt(self, text) {
            Ok(()) => Ok(()),
            Err(_) => Err(AllocError),
        }
    }
}

// A number, or the refusal in its place.
pub fn number(out: &mut Vec<u8>, answer: Result<usize, Refusal>) -> Result<(), AllocError> {
    match answer {
        Ok(n) => write!(out, "{n}"),
        Err(why) => refusal(out, why),
    }
}

// What is not refused, by the text given for it.
pub fn verdict(
    out: &mut Vec<u8>,
    answer: Result<(), Refusal>,
    accepted: &[u8],
) -> Result<(), AllocError> {
    match answer {
        Ok(()) => out.write_all(accepted),
        Err(why) => refusal(out, why),
    }
}

// A refusal by its number, with the values that it names.
pub fn refusal(out: &mut Vec<u8>, why: Refusal) -> Result<(), AllocError> {
    let rule = outcome::rule_number(why);
    write!(out, "refused {rule}")?;
    match why {
        Refusal::ZeroOrder(a)
        | Refusal::PermutationOrderOverflow(a)
        | Refusal::RowBitAboveSites(a)
        | Refusal::NotFinite(a)
        | Refusal::SumNotFinite(a)
        | Refusal::NotALetter(a)
        | Refusal::CoefficientRange(a) => write!(out, " {a}"),
        Refusal::LengthMismatch(a, b)
        | Refusal::PermutationLength(a, b)
        | Refusal::TargetOutOfRange(a, b)
        | Refusal::DuplicateTarget(a, b)
        | Refusal::NonCommuting(a, b) => write!(out, " {a} {b}"),
        Refusal::OrderMismatch(a, b, c) => write!(out, " {a} {b} {c}"),
        _ => Ok(()),
    }
}

// A float by its bits, in hexadecimal, so that each float has its own text.
pub fn float(out: &mut Vec<u8>, x: f64) -> Result<(), AllocError> {
    if x == x {
        let bits = x.to_bits();
        write!(out, "{bits:016x}")
    } else {
        write!(out, "nan")
    }
}

// The letters of a word; nothing of what is no word.
pub fn spell(out: &mut Vec<u8>, n: usize, word: &[u8]) -> Result<(), AllocError> {
    match pauli_word::to_text(n, word) {
        Ok(written) => letters(out, &written),
        Err(_) => Ok(()),
    }
}

// The letters of a word that is written as text.
pub fn letters(out: &mut Vec<u8>, written: &WordText) -> Result<(), AllocError> {
    match written.text.get(..written.letters) {
        Some(text) => out.write_all(text),
        None => Ok(()),
    }
}

// The words of n sites in a list of bytes, a space before each.
pub fn words(out: &mut Vec<u8>, n: usize, list: &[u8]) -> Result<(), AllocError> {
    for word in list.chunks_exact(WORD_BYTES) {
        write!(out, " ")?;
        spell(out, n, word)?;
    }
    Ok(())
}

// The members of a list, a space before each.
pub fn list<T: Display>(out: &mut Vec<u8>, list: &[T]) -> Result<(), AllocError> {
    for x in list {
        write!(out, " {x}")?;
    }
    Ok(())
}

// The same of whole numbers, which long lists have: their digits without a formatter.
pub fn numbers<N: Integer>(out: &mut Vec<u8>, list: &[N]) -> Result<(), AllocError> {
    let mut digits = Buffer::new();
    for n in list {
        out.push(b' ')?;
        out.extend_from_slice(digits.format(*n).as_bytes())?;
    }
    Ok(())
}
