// The value lines of a sheet: the first that breaks a rule, and their rows. Whoever calls a function here owes its `requires`.
ghost use Rattle.std.specs.Prelude.{◌≡◌, ◌+◌, ◌*◌, ◌≤◌, length, IfErr};
ghost use Rattle.outcome.specs.Outcome.{verdict, answer};
ghost use Rattle.elements.specs.HeldGroup.{generators_in, Tables, HoldsGroup, generators_held};
ghost use Rattle.text.specs.Text.{line_end, pieces, put};
ghost use Rattle.sheet_lines.specs.Lines.{body_checks};
ghost use Rattle.sheet_lines.specs.Parts.{outcome_of_lines};
ghost use Rattle.sheet_rows.specs.Rows.{spread};
ghost use Rattle.sheet_text.specs.Sheet.{rows, max_sheet};

use outcome::Refusal;
use permutation::Lent;
use sheet_lines::LineFault;

// The first value line that breaks a rule; bytes after the last line end are a line of another form.
pub fn body_fault(used: usize, sites: usize, text: &[u8]) -> Result<(), LineFault>
    requires { (used ≤ 3) × (length text.now ≤ max_sheet) }
    ensures fault { outcome_of_lines result ≡ verdict (body_checks used sites (pieces line_end text.now) 4) }
    ensures small { IfErr result (λ fault. fault.line ≤ max_sheet + 4) }
{
    let mut at = 0;
    let mut line = 4;
    // A while: each line says where the next one begins.
    while at < text.len() {
        let end = at + text::read::find(&text[at..], 10);
        if end == text.len() {
            return Err(LineFault {
                why: Refusal::LineForm,
                line,
            });
        }
        sheet_lines::line::value_fault(used, sites, &text[at..end]).map_err(|why| LineFault {
            why,
            line,
        })?;
        at = end + 1;
        line += 1;
    }
    Ok(())
}

// The rows of value lines that break no rule, into a list from a place on; the place after them.
pub fn fill_rows(group: &Lent<'_>, text: &[u8], list: &mut [u8], start: usize) -> usize
    requires tables { HoldsGroup group.now }
    requires used_bound { group.now.generators ≤ 3 }
    requires text_value { verdict (body_checks group.now.generators group.now.sites (pieces line_end text.now) 4) ≡ answer tt }
    requires text_len_bound { (length text.now ≤ max_sheet) × (start + spread * length text.now ≤ length list.old) }
    ensures place { result ≡ start + length (rows group.now.generators (generators_held group.now) (pieces line_end text.now)) }
    ensures list { list.new ≡ put start (rows group.now.generators (generators_held group.now) (pieces line_end text.now)) list.old }
    ensures room { result ≤ length list.old }
{
    let mut at = 0;
    let mut place = start;
    // A while: each line says where the next one begins.
    while at < text.len() {
        let end = at + text::read::find(&text[at..], 10);
        place = sheet_rows::row::write_row(group, &text[at..end], list, place);
        at = end + 1;
    }
    place
}
