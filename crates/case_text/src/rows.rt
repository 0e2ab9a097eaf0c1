// The rows of a sum, as lines put them together: their words, and their coefficients, as floats and as whole numbers.
ghost use Rattle.std.specs.Prelude.{◌≡◌, IfOk, pos};
ghost use Rattle.std.specs.Cow.{cow_slice_items};
ghost use Rattle.std.specs.Float.{binary64};
ghost use Rattle.std.specs.Float.Ieee.{of_bits};
ghost use Rattle.case_text.specs.Rows.{front, words_held, floats_held, wholes_held};

use crate::commands::RowsLine;
use crate::lists::{ROW_BYTES, ROW_ROOM};
use crate::{fields, hexadecimal, texts};
use pauli_word::{OLD_WORD_BYTES, WORD_BYTES};
use std::alloc::{AllocError, Global};
use std::borrow::CowSlice;

// Words of WORD_BYTES bytes, and as many coefficients of either kind. With the first row the words take the room of all rows that there may be, and
// zeros stand after the last.
#[derive(Drop)]
pub struct Rows {
    words: Vec<u8>,
    floats: Vec<f64>,
    wholes: Vec<i64>,
}

// What a line does to the rows.
#[derive(Clone, Copy)]
enum Change {
    Clear,
    Append(Equal),
    Number(usize),
    MakeOld,
}

// Rows with one word: how many, and their coefficients, of which one is 0.
#[derive(Clone, Copy)]
struct Equal {
    count: usize,
    float: f64,
    whole: i64,
}

impl Rows {
    // No rows.
    pub fn new(alloc: Global) -> Rows {
        Rows {
            words: Vec::new(alloc),
            floats: Vec::new(alloc),
            wholes: Vec::new(alloc),
        }
    }

    pub fn count(&self) -> usize {
        self.wholes.len()
    }

    // The first bytes of the words, and zeros after the last.
    pub fn words(&self, length: usize) -> Result<Vec<u8>, AllocError>
        ensures { IfOk result (λ list. list.items ≡ front 0 length (words_held self.now)) }
    {
        self.lent_words(length)?.into_owned(*self.words.allocator())
    }

    // The first coefficients as floats, and zeros after the last.
    pub fn floats(&self, length: usize) -> Result<Vec<f64>, AllocError>
        ensures { IfOk result (λ list. list.items ≡ front (of_bits binary64 0) length (floats_held self.now)) }
    {
        self.lent_floats(length)?
            .into_owned(*self.floats.allocator())
    }

    // The first coefficients as whole numbers, and zeros after the last.
    pub fn wholes(&self, length: usize) -> Result<Vec<i64>, AllocError>
        ensures { IfOk result (λ list. list.items ≡ front (pos 0) length (wholes_held self.now)) }
    {
        self.lent_wholes(length)?
            .into_owned(*self.wholes.allocator())
    }

    // What `words` answers, lent where it stands in the rows.
    pub fn lent_words(&self, length: usize) -> Result<CowSlice<'_, u8>, AllocError>
        ensures { IfOk result (λ list. cow_slice_items list ≡ front 0 length (words_held self.now)) }
    {
        filled_up(&self.words, length, 0)
    }

    // What `floats` answers, lent where it stands in the rows.
    pub fn lent_floats(&self, length: usize) -> Result<CowSlice<'_, f64>, AllocError>
        ensures { IfOk result (λ list. cow_slice_items list ≡ front (of_bits binary64 0) length (floats_held self.now)) }
    {
        filled_up(&self.floats, length, 0.0)
    }

    // What `wholes` answers, lent where it stands in the rows.
    pub fn lent_wholes(&self, length: usize) -> Result<CowSlice<'_, i64>, AllocError>
        ensures { IfOk result (λ list. cow_slice_items list ≡ front (pos 0) length (wholes_held self.now)) }
    {
        filled_up(&self.wholes, length, 0)
    }

    // Changes the rows as a line says, with the word in force; none where it has another form.
    pub fn put(&mut self, word: &[u8], line: RowsLine<'_>) -> Result<Option<()>, AllocError> {
        let Some(change) = read(self.count(), line) else {
            return Ok(None);
        };
        match change {
            Change::Clear => self.clear(),
            Change::Append(rows) => self.append(word, rows)?,
            Change::Number(count) => self.number(count)?,
            Change::MakeOld => self.make_old(),
        }
        Ok(Some(()))
    }

    fn clear(&mut self) {
        for row in 0..self.count() {
            write_word(&mut self.words, row, &[]);
        }
        self.floats.clear();
        self.wholes.clear();
    }

    fn append(&mut self, word: &[u8], rows: Equal) -> Result<(), AllocError> {
        for _ in 0..rows.count {
            self.push(word, rows.float, rows.whole)?;
        }
        Ok(())
    }

    // A row more, its word cut or filled up with zeros.
    fn push(&mut self, word: &[u8], float: f64, whole: i64) -> Result<(), AllocError> {
        if self.words.is_empty() {
            self.words.resize(ROW_BYTES, 0)?;
        }
        write_word(&mut self.words, self.wholes.len(), word);
        self.floats.push(float)?;
        self.wholes.push(whole)?;
        Ok(())
    }

    // The rows are so many, each its number: in binary digits as X, the lowest at site 0, and as both coefficients.
    fn number(&mut self, count: usize) -> Result<(), AllocError> {
        self.clear();
        for row in 0..count {
            let float = std::num::nearest_u64_to_f64(row as u64);
            self.push(&row.to_le_bytes(), float, i64::try_from(row).unwrap_or(0))?;
        }
        Ok(())
    }

    // Writes the words again, each in the old form, one after the other from the front.
    fn make_old(&mut self) {
        for row in 0..self.count() {
            write_old(&mut self.words, row);
        }
    }
}

// The front of a list, which is lent; or the whole list, copied, and zeros after it.
fn filled_up<T: Copy>(list: &Vec<T>, length: usize, zero: T) -> Result<CowSlice<'_, T>, AllocError>
    ensures { IfOk result (λ given. cow_slice_items given ≡ front zero length list.now.items) }
{
    if let Some(front) = list.get(..length) {
        return Ok(CowSlice::Borrowed(front));
    }
    let mut copy = Vec::with_capacity(*list.allocator(), length)?;
    copy.extend_from_slice(list)?;
    copy.resize(length, zero)?;
    Ok(CowSlice::Owned(copy))
}

// Writes the word of a row, cut or filled up with zeros.
fn write_word(words: &mut [u8], row: usize, word: &[u8]) {
    if row < words.len() / WORD_BYTES {
        let at = WORD_BYTES * row;
        texts::write(word, &mut words[at..at + WORD_BYTES]);
    }
}

// Writes the word of a row in the old form, at its place among words of that form.
fn write_old(words: &mut [u8], row: usize) {
    if row < words.len() / WORD_BYTES {
        let from = WORD_BYTES * row;
        let old = texts::old_form(&words[from..from + WORD_BYTES]);
        let to = OLD_WORD_BYTES * row;
        texts::write(&old, &mut words[to..to + OLD_WORD_BYTES]);
    }
}

// What a line does to so many rows, if it has its form, and there is room.
fn read(rows: usize, line: RowsLine<'_>) -> Option<Change> {
    match line {
        RowsLine::Clear => Some(Change::Clear),
        RowsLine::Float(text) => append(rows, 1, float(text)?),
        RowsLine::Floats(text) => {
            let (count, rest) = fields::first(text)?;
            append(rows, fields::number(count)?, float(rest)?)
        }
        RowsLine::Whole(text) => append(rows, 1, whole(text)?),
        RowsLine::Wholes(text) => {
            let (count, rest) = fields::first(text)?;
            append(rows, fields::number(count)?, whole(rest)?)
        }
        RowsLine::Numbered(count) => (count <= ROW_ROOM).then_some(Change::Number(count)),
        RowsLine::Old => Some(Change::MakeOld),
    }
}

// So many rows more of these.
fn append(rows: usize, more: u64, row: Equal) -> Option<Change> {
    let count = usize::try_from(more).ok()?;
    let fits = rows.checked_add(count)? <= ROW_ROOM;
    fits.then_some(Change::Append(Equal { count, ..row }))
}

// ` HEX`: a row by the bits of a float.
fn float(text: &[u8]) -> Option<Equal> {
    Some(Equal {
        count: 1,
        float: hexadecimal::float(fields::after_space(text))?,
        whole: 0,
    })
}

// ` C`: a row by a whole number.
fn whole(text: &[u8]) -> Option<Equal> {
    Some(Equal {
        count: 1,
        float: 0.0,
        whole: fields::whole(fields::after_space(text))?,
    })
}

#[cfg(test)]
mod tests {
    use super::*;
    use std::test::Fail;

    // Three rows with an X at site 0, of the whole number 2: the first of them, and zeros after the last.
    #[test]
    fn fronts_of_whole_rows(rt: HostRuntime) -> Result<(), Fail> {
        let mut rows = Rows::new(rt.alloc());
        assert!(rt; rows.put(&[1], RowsLine::Wholes(b" 3 2"))?.is_some());
        let two = rows.words(2 * WORD_BYTES)?;
        assert_eq!(rt; two.len(), 2 * WORD_BYTES);
        assert_eq!(rt; two[0], 1);
        assert_eq!(rt; two[WORD_BYTES], 1);
        let past = rows.words(ROW_BYTES + 1)?;
        assert_eq!(rt; past.len(), ROW_BYTES + 1);
        assert_eq!(rt; past[2 * WORD_BYTES], 1);
        assert_eq!(rt; past[3 * WORD_BYTES], 0);
        assert_eq!(rt; past[ROW_BYTES], 0);
        assert_eq!(rt; rows.wholes(2)?.as_slice(), [2, 2].as_slice());
        assert_eq!(rt; rows.wholes(5)?.as_slice(), [2, 2, 2, 0, 0].as_slice());
        assert_eq!(rt; rows.lent_words(2 * WORD_BYTES)?.as_slice(), two.as_slice());
        assert_eq!(rt; rows.lent_wholes(5)?.as_slice(), [2, 2, 2, 0, 0].as_slice());
        Ok(())
    }

    // Two rows of 1.0.
    #[test]
    fn fronts_of_rows_of_floats(rt: HostRuntime) -> Result<(), Fail> {
        let mut rows = Rows::new(rt.alloc());
        assert!(rt;
            rows.put(&[1], RowsLine::Floats(b" 2 3ff0000000000000"))?
                .is_some()
        );
        assert_eq!(rt; rows.floats(1)?.as_slice(), [1.0].as_slice());
        let three = rows.floats(3)?;
        assert_eq!(rt; three.as_slice(), [1.0, 1.0, 0.0].as_slice());
        assert_eq!(rt;
            three.last().map(|x| 1.0 / *x),
            Some(f64::INFINITY),
            "not -0.0"
        );
        assert_eq!(rt; rows.lent_floats(3)?.as_slice(), [1.0, 1.0, 0.0].as_slice());
        assert_eq!(rt; rows.wholes(2)?.as_slice(), [0, 0].as_slice());
        Ok(())
    }
}
