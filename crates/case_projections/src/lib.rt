// The call that projects a sum, as lines of cases name it: in lists of given lengths, and what it comes to.
#![tactic(auto)]

use case_calls::InForce;
use case_text::lists::{Lengths, Lists};
use case_text::rows::Rows;
use lines::Append;
use outcome::Refusal;
use pauli_word::WORD_BYTES;
use phases::PhaseTable;
use project::Projection;
use std::alloc::{AllocError, Global};

// The lists that the call fills.
#[derive(Drop)]
struct Projected {
    representatives: Vec<u8>,
    cosines: Vec<i64>,
    sines: Vec<i64>,
}

// Projects the rows by a phase table.
pub fn project(
    out: &mut Vec<u8>,
    given: &InForce<'_>,
    table: PhaseTable,
    rows: &Rows,
    lists: &Lists,
) -> Result<(), AllocError> {
    let Some(lengths) = lists.lengths(rows.count()) else {
        return write!(out, "?");
    };
    let words = rows.lent_words(lengths.words)?;
    let wholes = rows.lent_wholes(lengths.coefficients)?;
    let mut projected = Projected::new(*out.allocator(), lengths)?;
    let answer = projected.call(given, table, &words, &wholes);
    projected.print(out, given.n, answer, lists)
}

impl Projected {
    // All nines.
    fn new(alloc: Global, lengths: Lengths) -> Result<Projected, AllocError> {
        Ok(Projected {
            representatives: vec![in alloc; 9u8; lengths.representatives]?,
            cosines: vec![in alloc; 9i64; lengths.first]?,
            sines: vec![in alloc; 9i64; lengths.second]?,
        })
    }

    fn call(
        &mut self,
        given: &InForce<'_>,
        table: PhaseTable,
        words: &[u8],
        wholes: &[i64],
    ) -> Result<Projection, Refusal> {
        project::project_pauli_sum(
            table,
            &given.group,
            given.modes,
            words,
            wholes,
            &mut self.representatives,
            &mut self.cosines,
            &mut self.sines,
        )
    }

    fn print(
        &self,
        out: &mut Vec<u8>,
        n: usize,
        answer: Result<Projection, Refusal>,
        lists: &Lists,
    ) -> Result<(), AllocError> {
        match answer {
            Ok(Projection { kept, dropped }) => {
                write!(out, "{kept} kept, {dropped} dropped:")?;
                if lists.to == 0 {
                    self.table(out, n, kept)
                } else {
                    self.rows(out, n, lists.from, lists.to)
                }
            }
            Err(why) => {
                lines::refusal(out, why)?;
                self.after(out)
            }
        }
    }

    // What the lists hold after a refusal.
    fn after(&self, out: &mut Vec<u8>) -> Result<(), AllocError> {
        let nines = self.representatives.iter().all(|x| *x == 9)
            && self.cosines.iter().all(|x| *x == 9)
            && self.sines.iter().all(|x| *x == 9);
        if nines {
            write!(out, ", as they were")
        } else {
            write!(out, ", changed")
        }
    }

    // The rows of the table, one if a row is kept, and then all whose words are not zeros; and whether anything but zeros stands after them.
    fn table(&self, out: &mut Vec<u8>, n: usize, kept: usize) -> Result<(), AllocError> {
        let mut first = true;
        let mut over = kept == 0;
        let mut more = false;
        let words = self.representatives.chunks_exact(WORD_BYTES);
        let sums = self.cosines.iter().zip(self.sines.iter());
        for (word, (cosine, sine)) in words.zip(sums) {
            let zeros = word.iter().all(|byte| *byte == 0);
            over = over || (zeros && !first);
            first = false;
            if !over {
                print_row(out, n, word, *cosine, *sine)?;
            } else if !zeros || *cosine != 0 || *sine != 0 {
                more = true;
            }
        }
        if more {
            write!(out, " and more after them")?;
        }
        Ok(())
    }

    // Rows from one to before another.
    fn rows(&self, out: &mut Vec<u8>, n: usize, from: usize, to: usize) -> Result<(), AllocError> {
        let words = self.representatives.chunks_exact(WORD_BYTES);
        let sums = self.cosines.iter().zip(self.sines.iter());
        for (word, (cosine, sine)) in words.zip(sums).take(to).skip(from) {
            print_row(out, n, word, *cosine, *sine)?;
        }
        Ok(())
    }
}

fn print_row(
    out: &mut Vec<u8>,
    n: usize,
    word: &[u8],
    cosine: i64,
    sine: i64,
) -> Result<(), AllocError> {
    write!(out, " ")?;
    lines::spell(out, n, word)?;
    write!(out, " {cosine} {sine}")
}
