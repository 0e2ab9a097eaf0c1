// Writing: texts and numbers into a lent list, from a place on; the rest of the list stays.
ghost use Rattle.std.specs.Prelude.{◌≡◌, ◌+◌, ◌≤◌, ◌<◌, length, drop};
ghost use Rattle.text.specs.Text.{decimal, max_digits, max_written, put};

// The most digits of a number that is written.
pub const MAX_DIGITS: usize = 7;

// Writes a text at a place; the place after it.
pub fn append(list: &mut [u8], at: usize, text: &[u8]) -> usize
    requires { at + length text.now ≤ length list.old }
    ensures place { result ≡ at + length text.now }
    ensures list { list.new ≡ put at text.now list.old }
{
    let end = at + text.len();
    list[at..end].copy_from_slice(text);
    end
}

// Writes a number of at most MAX_DIGITS digits in decimal; the place after it.
pub fn append_decimal(list: &mut [u8], at: usize, number: usize) -> usize
    requires number_lt_max_written { number < max_written }
    requires max_digits_in_bounds { at + max_digits ≤ length list.old }
    ensures place { result ≡ at + length (decimal number) }
    ensures list { list.new ≡ put at (decimal number) list.old }
{
    let mut digits = [0u8; MAX_DIGITS];
    let first = fill_digits(&mut digits, number);
    append(list, at, &digits[first..])
}

// The digits of a number at the end of a list of MAX_DIGITS places; where they begin.
pub fn fill_digits(digits: &mut [u8], number: usize) -> usize
    requires { (number < max_written) × (length digits.old ≡ max_digits) }
    ensures place { result + length (decimal number) ≡ max_digits }
    ensures digits { drop result digits.new ≡ decimal number }
{
    let mut rest = number;
    let mut i = MAX_DIGITS - 1;
    digits[i] = b'0' + (rest % 10) as u8;
    // A while: the digits are as many as the number has.
    while 10 <= rest {
        rest = rest / 10;
        i = i - 1;
        digits[i] = b'0' + (rest % 10) as u8;
    }
    i
}
