// The lists of a call on the rows of a sum: their lengths, and which rows of them are printed.
use pauli_word::WORD_BYTES;
use row_lists::MAX_ROWS;

// The most rows of a sum, and the bytes of their words.
pub const ROW_ROOM: usize = MAX_ROWS + 4;

pub const ROW_BYTES: usize = ROW_ROOM * WORD_BYTES;

// The bytes of the words and the places of the coefficients; and of the lists that the call fills the bytes of the words, and the places of the two
// others.
#[derive(Clone, Copy)]
pub struct Lengths {
    pub words: usize,
    pub coefficients: usize,
    pub representatives: usize,
    pub first: usize,
    pub second: usize,
}

// The lists as a line writes them: the lengths that it gives, else those of the rows that there are. The filled rows are printed from one to before
// another; to 0: all.
#[derive(Clone, Copy)]
pub struct Lists {
    pub lengths: Option<Lengths>,
    pub from: usize,
    pub to: usize,
}

impl Lists {
    // The lists of the rows that there are, all rows printed, or those from one to before another.
    pub fn of_rows(from: usize, to: usize) -> Lists {
        Lists {
            lengths: None,
            from,
            to,
        }
    }

    // Lists of these lengths.
    pub fn of_lengths(lengths: Lengths) -> Lists {
        Lists {
            lengths: Some(lengths),
            from: 0,
            to: 0,
        }
    }

    // The lengths, where there are so many rows; none if a list has no room.
    pub fn lengths(&self, rows: usize) -> Option<Lengths> {
        let bytes = rows.checked_mul(WORD_BYTES)?;
        let lengths = self.lengths.unwrap_or(Lengths {
            words: bytes,
            coefficients: rows,
            representatives: bytes,
            first: rows,
            second: rows,
        });
        let fits = lengths.words <= ROW_BYTES
            && lengths.coefficients <= ROW_ROOM
            && lengths.representatives <= ROW_BYTES
            && lengths.first <= ROW_ROOM
            && lengths.second <= ROW_ROOM;
        fits.then_some(lengths)
    }

    // The end of the rows that are printed, of so many.
    pub fn end(&self, rows: usize) -> usize {
        if self.to == 0 { rows } else { self.to }
    }
}
