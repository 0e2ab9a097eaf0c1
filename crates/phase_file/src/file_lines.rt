// The lines of a file read: the numbers of its entries. Whoever calls a function here owes its `requires`.
ghost use Rattle.std.specs.Prelude.{◌≡◌, true, length, drop};
ghost use Rattle.text.specs.Text.{line_end, pieces};
ghost use Rattle.phases.specs.Rules.{turn};
ghost use Rattle.phase_file.specs.File.{entries_alone, is_file};
ghost use Rattle.phase_file.specs.Read.{entry_read, column_read};

use text::{names, read};

// A line of two numbers, parted by one space: the cosine and the sine.
pub fn read_entry(line: &[u8]) -> Option<(i64, i64)>
    ensures { result ≡ entry_read line.now }
{
    let k = read::find(line, b' ');
    if k == line.len() {
        return None;
    }
    let cosine = read::read_signed(&line[0..k])?;
    let sine = read::read_signed(&line[k + 1..])?;
    Some((cosine, sine))
}

// Reads a line of two numbers for each place of two lists; whether the text is so many lines and nothing after them.
pub fn read_lines(text: &[u8], cosines: &mut [i64], sines: &mut [i64]) -> bool
    requires { (length cosines.old ≡ turn) × (length sines.old ≡ turn) }
    ensures form { result ≡ entries_alone turn (pieces line_end text.now) }
    ensures cosines { result ≡ true → cosines.new ≡ column_read 0 (pieces line_end text.now) }
    ensures sines { result ≡ true → sines.new ≡ column_read 1 (pieces line_end text.now) }
{
    let mut at = 0;
    for j in 0..cosines.len() {
        let end = at + read::find(&text[at..], 10);
        if end == text.len() {
            return false;
        }
        let Some((cosine, sine)) = read_entry(&text[at..end]) else {
            return false;
        };
        cosines[j] = cosine;
        sines[j] = sine;
        at = end + 1;
    }
    at == text.len()
}

// Reads a file into the two lists; whether it has its form.
pub fn read_file(file: &[u8], cosines: &mut [i64], sines: &mut [i64]) -> bool
    requires { (length cosines.old ≡ turn) × (length sines.old ≡ turn) }
    ensures form { result ≡ is_file (pieces line_end file.now) }
    ensures cosines { result ≡ true → cosines.new ≡ column_read 0 (drop 1 (pieces line_end file.now)) }
    ensures sines { result ≡ true → sines.new ≡ column_read 1 (drop 1 (pieces line_end file.now)) }
{
    let Some(k) = names::names_end(b"cos sin", file) else {
        return false;
    };
    read_lines(&file[k + 1..], cosines, sines)
}
