// The places of a list where an entry stands: their list, rising, and the number that each has in it.
ghost use Rattle.std.specs.Prelude.{◌≤◌, length, get_or};
ghost use Rattle.pauli_word.specs.Limits.{max_sites};
ghost use Rattle.split.specs.Places.{Listed};

// Lists the places below n where the value stands, and writes at each of them its number; how many there are.
pub fn list_places(
    entries: &[u16],
    n: usize,
    value: u16,
    table: &mut [u16],
    number: &mut [u16],
) -> usize
    requires { (n ≤ length entries.now) × (n ≤ length table.old) × (n ≤ length number.old) × (n ≤ max_sites) }
    ensures { Listed n result (λ q. get_or entries.now q 0) value (λ a. get_or table.new a 0) (λ q. get_or number.new q 0) }
{
    let mut m: usize = 0;
    for q in 0..n {
        if entries[q] == value {
            table[m] = q as u16;
            number[q] = m as u16;
            m += 1;
        }
    }
    m
}
