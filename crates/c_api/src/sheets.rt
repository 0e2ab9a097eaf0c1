// The sheet.
ghost use Rattle.std.specs.Prelude.{◌≡◌, length};
ghost use Rattle.sheet_text.specs.Sheet.{sheet, written_outcome, list_after};
ghost use Rattle.c_api.specs.Told.{page_number, page_values, page_length};

use crate::{VALUES, told};
use outcome::Refusal;
use sheet_text::Printed;

// What a sheet prints, at the front of a list, and how many bytes that is; the rest of the list stays. MAX_TABLE bytes suffice for any sheet. Of a refused
// sheet that is the one line that says so; its values are the line of the sheet, 0 for the sheet as a whole, and then what the rule names. 21 is a list
// that is too short; it stays, and nothing is written.
#[unsafe(no_mangle)]
pub extern "C" fn gomurin_sheet(
    input: &[u8],
    list: &mut [u8],
    written: &mut usize,
    values: &mut [usize; VALUES],
) -> usize
    ensures number { result ≡ page_number (written_outcome input.now (length list.old)) }
    ensures list { list.new ≡ list_after (sheet input.now) list.old (written_outcome input.now (length list.old)) }
    ensures written { written.new ≡ page_length (written_outcome input.now (length list.old)) }
    ensures values { values.new ≡ page_values (written_outcome input.now (length list.old)) }
{
    match sheet_text::sheet_text(input, list) {
        Printed::Table(bytes) => {
            *written = bytes;
            told::answered(values)
        }
        Printed::Refused(why, line, bytes) => {
            *written = bytes;
            told::refused_at(why, line, values)
        }
        Printed::ListLength => {
            *written = 0;
            told::refused(Refusal::ListLength, values)
        }
    }
}
