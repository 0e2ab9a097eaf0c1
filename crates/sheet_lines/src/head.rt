// The first three lines of a sheet: names, a shape with its sides, names.
ghost use Rattle.std.specs.Prelude.{◌≡◌, ◌≤◌, IfOk, IfErr};
ghost use Rattle.outcome.specs.Outcome.{verdict};
ghost use Rattle.text.specs.Text.{line_end, pieces};
ghost use Rattle.sheet_lines.specs.Lines.{line_checks};
ghost use Rattle.sheet_lines.specs.Parts.{refused_at, Ready};

use crate::{LineFault, line};
use group::Group;
use outcome::Refusal;
use text::names;

// The group, how many modes are used, and where the value lines begin.
#[derive(Clone, Copy)]
pub struct Head {
    pub group: Group,
    pub used: usize,
    pub body: usize,
}

// The first three lines of a sheet.
pub fn read_head(input: &[u8]) -> Result<Head, LineFault>
    ensures fault { IfErr result (λ fault. (refused_at fault.why fault.line ≡ verdict (line_checks (pieces line_end input.now))) × (fault.line ≤ 3)) }
    ensures ready { IfOk result (λ head. Ready input.now head) }
{
    let Some(a) = names::names_end(b"shape a b c", input) else {
        return Err(LineFault {
            why: Refusal::LineForm,
            line: 1,
        });
    };
    let text = &input[a + 1..];
    let b = text::read::find(text, 10);
    if b == text.len() {
        return Err(LineFault {
            why: Refusal::LineForm,
            line: 2,
        });
    }
    let shape = line::read_shape(&text[0..b]).map_err(|why| LineFault { why, line: 2 })?;
    let rest = &text[b + 1..];
    let Some(c) = names::names_end(b"word k0 k1 k2", rest) else {
        return Err(LineFault {
            why: Refusal::LineForm,
            line: 3,
        });
    };
    Ok(Head {
        group: shape.group,
        used: line::modes_of(shape.kind),
        body: a + b + c + 3,
    })
}
