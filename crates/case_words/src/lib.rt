// The calls on rows of words, as lines of cases name them: in lists of given lengths, and what they come to.
#![tactic(auto)]

use case_calls::InForce;
use case_text::lists::{Lengths, Lists};
use case_text::rows::Rows;
use lines::Append;
use outcome::Refusal;
use pauli_word::WORD_BYTES;
use std::alloc::{AllocError, Global};

// The lists that a call fills. The call without modes leaves the sizes as they are.
#[derive(Drop)]
struct Answered {
    representatives: Vec<u8>,
    indices: Vec<usize>,
    sizes: Vec<usize>,
}

// The least words of the rows.
pub fn canonicalize(
    out: &mut Vec<u8>,
    given: &InForce<'_>,
    rows: &Rows,
    lists: &Lists,
) -> Result<(), AllocError> {
    let Some(lengths) = lists.lengths(rows.count()) else {
        return write!(out, "?");
    };
    let words = rows.lent_words(lengths.words)?;
    let mut answered = Answered::new(*out.allocator(), lengths)?;
    let answer = orbit::canonicalize_words(
        &given.group,
        &words,
        &mut answered.representatives,
        &mut answered.indices,
    );
    answered.begin(out, answer)?;
    match answer {
        Ok(()) => answered.print_least(out, given.n, lists),
        Err(_) => Ok(()),
    }
}

// What the modes make of the rows.
pub fn in_sector(
    out: &mut Vec<u8>,
    given: &InForce<'_>,
    rows: &Rows,
    lists: &Lists,
) -> Result<(), AllocError> {
    let Some(lengths) = lists.lengths(rows.count()) else {
        return write!(out, "?");
    };
    let words = rows.lent_words(lengths.words)?;
    let mut answered = Answered::new(*out.allocator(), lengths)?;
    let answer = momentum::sector_words(
        &given.group,
        given.modes,
        &words,
        &mut answered.representatives,
        &mut answered.indices,
        &mut answered.sizes,
    );
    answered.begin(out, answer)?;
    match answer {
        Ok(()) => answered.print_decided(out, given.n, lists),
        Err(_) => Ok(()),
    }
}

impl Answered {
    // All nines.
    fn new(alloc: Global, lengths: Lengths) -> Result<Answered, AllocError> {
        Ok(Answered {
            representatives: vec![in alloc; 9u8; lengths.representatives]?,
            indices: vec![in alloc; 9usize; lengths.first]?,
            sizes: vec![in alloc; 9usize; lengths.second]?,
        })
    }

    // How many rows there are, or the refusal and what the lists hold after it.
    fn begin(&self, out: &mut Vec<u8>, answer: Result<(), Refusal>) -> Result<(), AllocError> {
        if let Err(why) = answer {
            lines::refusal(out, why)?;
            return self.after(out);
        }
        let count = self.indices.len();
        write!(out, "{count} rows:")
    }

    fn after(&self, out: &mut Vec<u8>) -> Result<(), AllocError> {
        let nines = self.representatives.iter().all(|x| *x == 9)
            && self.indices.iter().all(|x| *x == 9)
            && self.sizes.iter().all(|x| *x == 9);
        if nines {
            write!(out, ", as they were")
        } else {
            write!(out, ", changed")
        }
    }

    // The rows with their indices.
    fn print_least(&self, out: &mut Vec<u8>, n: usize, lists: &Lists) -> Result<(), AllocError> {
        let words = self.representatives.chunks_exact(WORD_BYTES);
        let rows = words.zip(self.indices.iter());
        for (word, index) in rows.take(lists.end(self.indices.len())).skip(lists.from) {
            write!(out, " ")?;
            lines::spell(out, n, word)?;
            write!(out, " {index}")?;
        }
        Ok(())
    }

    // The rows with their indices and sizes; of a dropped one a dash for zeros.
    fn print_decided(&self, out: &mut Vec<u8>, n: usize, lists: &Lists) -> Result<(), AllocError> {
        let words = self.representatives.chunks_exact(WORD_BYTES);
        let rows = words.zip(self.indices.iter().zip(self.sizes.iter()));
        let end = lists.end(self.indices.len());
        for (word, (index, size)) in rows.take(end).skip(lists.from) {
            write!(out, " ")?;
            if *size == 0 && word.iter().all(|byte| *byte == 0) {
                write!(out, "-")?;
            } else {
                lines::spell(out, n, word)?;
            }
            write!(out, " {index} {size}")?;
        }
        Ok(())
    }
}
