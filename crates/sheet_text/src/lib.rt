// The sheet: from the bytes of a sheet to the bytes of its table. A sheet is a line of names, a line with a shape and its sides, a line of names, and
// then a line for each word with its modes; the table has a row for each of those, or one line that says which rule a line breaks.
//
// The call asks nothing of its caller. A list that is too short is refused and stays as it was.
#![tactic(auto)]

mod body;

ghost use Rattle.std.specs.Prelude.{◌≡◌, length, ◌<◌, Err, IfOk, IfErr};
ghost use Rattle.outcome.specs.Outcome.{answer, verdict, on_answer, done, rule_number};
ghost use Rattle.text.specs.Text.{max_written, put};
ghost use Rattle.sheet_rows.specs.Rows.{refusal_line};
ghost use Rattle.sheet_lines.specs.Parts.{refused_at, Ready, outcome_of_lines};
ghost use Rattle.sheet_text.specs.Sheet.{sheet_checks, sheet, sheet_outcome, max_table, written_outcome, outcome_of_printed, list_after};

use outcome::Refusal;
use sheet_lines::LineFault;
use sheet_lines::head::Head;

// The most bytes of a sheet.
pub const MAX_SHEET: usize = 65536;

// A list of this length suffices for what any sheet of at most 65,536 bytes prints.
pub const MAX_TABLE: usize = 4 * MAX_SHEET + 64;

// What printing a sheet comes to.
#[derive(Clone, Copy)]
pub enum Printed {
    // A table of this length stands at the front of the list.
    Table(usize),
    // The sheet breaks a rule at a line, 0 for the sheet as a whole; the one line that says so has this length and stands at the front of the list.
    Refused(Refusal, usize, usize),
    // 21: the list is too short for what the sheet prints, and is as it was.
    ListLength,
}

// What a sheet prints, at the front of a list; the rest of the list stays.
pub fn sheet_text(input: &[u8], list: &mut [u8]) -> Printed
    ensures answer { outcome_of_printed result ≡ written_outcome input.now (length list.old) }
    ensures list { list.new ≡ list_after (sheet input.now) list.old (written_outcome input.now (length list.old)) }
{
    let mut text = [0u8; MAX_TABLE];
    let written = print_sheet(input, &mut text);
    let length = written.length;
    if list.len() < length {
        return Printed::ListLength;
    }
    text::write::append(list, 0, &text[0..length]);
    match written.answer {
        Ok(()) => Printed::Table(length),
        Err(fault) => Printed::Refused(fault.why, fault.line, length),
    }
}

// What the checks of a sheet come to, and the length of what it prints.
#[derive(Clone, Copy)]
struct Written {
    answer: Result<(), LineFault>,
    length: usize,
}

// The same at the front of a list that suffices.
fn print_sheet(input: &[u8], list: &mut [u8]) -> Written
    requires { length list.old ≡ max_table }
    ensures answer { outcome_of_lines result.answer ≡ on_answer done (sheet_outcome input.now) }
    ensures place { result.length ≡ length (sheet input.now) }
    ensures list { list.new ≡ put 0 (sheet input.now) list.old }
{
    let head = match checked(input) {
        Ok(head) => head,
        Err(fault) => return refused_line(list, fault),
    };
    let place = text::write::append(list, 0, b"word rep index orbit weight keep\n");
    Written {
        answer: Ok(()),
        length: body::fill_rows(&head.group.lent(), &input[head.body..], list, place),
    }
}

// The first three lines of a sheet that breaks no rule, or the first line that breaks one, 0 for the sheet as a whole.
fn checked(input: &[u8]) -> Result<Head, LineFault>
    ensures fault { IfErr result (λ fault. (refused_at fault.why fault.line ≡ verdict (sheet_checks input.now)) × (fault.line < max_written)) }
    ensures ready { IfOk result (λ head. Ready input.now head × (verdict (sheet_checks input.now) ≡ answer tt)) }
{
    if MAX_SHEET < input.len() {
        return Err(LineFault {
            why: Refusal::SheetLength,
            line: 0,
        });
    }
    let head = sheet_lines::head::read_head(input)?;
    body::body_fault(head.used, head.group.sites, &input[head.body..])?;
    Ok(head)
}

// The line of a refused sheet.
fn refused_line(list: &mut [u8], fault: LineFault) -> Written
    requires { (fault.line < max_written) × (length list.old ≡ max_table) }
    ensures answer { result.answer ≡ Err fault }
    ensures place { result.length ≡ length (refusal_line (rule_number fault.why) fault.line) }
    ensures list { list.new ≡ put 0 (refusal_line (rule_number fault.why) fault.line) list.old }
{
    Written {
        answer: Err(fault),
        length: sheet_rows::row::refusal_line(list, fault.why, fault.line),
    }
}
