// A sum folded: the call in lists of given lengths, and what it comes to.
use case_calls::InForce;
use case_text::lists::{Lengths, Lists};
use case_text::rows::Rows;
use lines::Append;
use outcome::Refusal;
use pauli_word::WORD_BYTES;
use std::alloc::{AllocError, Global};

// The lists that the call fills.
#[derive(Drop)]
struct Folded {
    representatives: Vec<u8>,
    sums: Vec<f64>,
    counts: Vec<u32>,
}

// Folds the rows in the fronts of lists.
pub fn fold(
    out: &mut Vec<u8>,
    given: &InForce<'_>,
    rows: &Rows,
    lists: &Lists,
) -> Result<(), AllocError> {
    let Some(lengths) = lists.lengths(rows.count()) else {
        return write!(out, "?");
    };
    let words = rows.lent_words(lengths.words)?;
    let coefficients = rows.lent_floats(lengths.coefficients)?;
    let mut folded = Folded::new(*out.allocator(), lengths)?;
    let answer = folded.call(given, &words, &coefficients);
    folded.print(out, given.n, answer, lists)
}

impl Folded {
    // All nines.
    fn new(alloc: Global, lengths: Lengths) -> Result<Folded, AllocError> {
        Ok(Folded {
            representatives: vec![in alloc; 9u8; lengths.representatives]?,
            sums: vec![in alloc; 9.0f64; lengths.first]?,
            counts: vec![in alloc; 9u32; lengths.second]?,
        })
    }

    fn call(
        &mut self,
        given: &InForce<'_>,
        words: &[u8],
        coefficients: &[f64],
    ) -> Result<usize, Refusal> {
        merge::canonicalize_pauli_sum(
            &given.group,
            words,
            coefficients,
            &mut self.representatives,
            &mut self.sums,
            &mut self.counts,
        )
    }

    fn print(
        &self,
        out: &mut Vec<u8>,
        n: usize,
        answer: Result<usize, Refusal>,
        lists: &Lists,
    ) -> Result<(), AllocError> {
        match answer {
            Ok(count) => {
                write!(out, "{count} rows:")?;
                self.rows(out, n, lists.from, lists.end(count))
            }
            Err(why) => {
                lines::refusal(out, why)?;
                self.after(out)
            }
        }
    }

    // Rows from one to before another.
    fn rows(&self, out: &mut Vec<u8>, n: usize, from: usize, to: usize) -> Result<(), AllocError> {
        let words = self.representatives.chunks_exact(WORD_BYTES);
        let numbers = self.sums.iter().zip(self.counts.iter());
        for (word, (sum, count)) in words.zip(numbers).take(to).skip(from) {
            write!(out, " ")?;
            lines::spell(out, n, word)?;
            write!(out, " ")?;
            lines::float(out, *sum)?;
            write!(out, " {count}")?;
        }
        Ok(())
    }

    // What the lists hold after a refusal.
    fn after(&self, out: &mut Vec<u8>) -> Result<(), AllocError> {
        if self.all_are(9, 9.0) {
            write!(out, ", as they were")
        } else if self.all_are(0, 0.0) {
            write!(out, ", zeros")
        } else {
            write!(out, ", changed")
        }
    }

    // Whether all three lists hold one number alone, given also as a float.
    fn all_are(&self, number: u8, float: f64) -> bool {
        self.representatives.iter().all(|x| *x == number)
            && self.sums.iter().all(|x| *x == float)
            && self.counts.iter().all(|x| *x == u32::from(number))
    }
}
