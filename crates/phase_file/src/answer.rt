// The line that tells an answer: `accepted`, or `refused` and the number of the rule. Whoever calls a function here owes its `requires`.
ghost use Rattle.std.specs.Prelude.{◌≡◌, ◌≤◌, length};
ghost use Rattle.outcome.specs.Outcome.{outcome_of, refusal_of};
ghost use Rattle.text.specs.Text.{put};
ghost use Rattle.phases.specs.declared.PhaseTable.{PhaseTable};
ghost use Rattle.phase_file.specs.File.{answer_line, max_line};

use outcome::Refusal;
use text::write;

// A list of this length suffices for the line.
pub const MAX_LINE: usize = 16;

// Writes the line of an answer at the front of a list; its length.
pub fn write_answer<T: Copy>(answer: Result<T, Refusal>, list: &mut [u8]) -> usize
    requires { max_line ≤ length list.old }
    ensures place { result ≡ length (answer_line (outcome_of answer)) }
    ensures list { list.new ≡ put 0 (answer_line (outcome_of answer)) list.old }
{
    match answer {
        Ok(_) => write::append(list, 0, b"accepted\n"),
        Err(why) => write_refusal(why, list),
    }
}

// The line of a refusal.
fn write_refusal(why: Refusal, list: &mut [u8]) -> usize
    requires { max_line ≤ length list.old }
    ensures place { result ≡ length (answer_line (refusal_of {A = PhaseTable} why)) }
    ensures list { list.new ≡ put 0 (answer_line (refusal_of {A = PhaseTable} why)) list.old }
{
    let name = write::append(list, 0, b"refused ");
    let end = write::append_decimal(list, name, outcome::rule_number(why));
    write::append(list, end, b"\n")
}
