// Cases: reads lines from an input, makes the call that each names, and prints one line for each.
//
// A line ends with byte 10, its fields are parted by one space, the first is its name. In force are a group, a word (a site count n and at most
// WORD_ROOM bytes), at most MODE_ROOM modes, a walk, a phase table, and the rows of a sum, at most ROW_ROOM; all is empty and zero at first, and the
// phase table the constant one. Numbers are decimal, of 64 bits, targets, orders and digits of 32, modes signed 32, places of a group value 16; HEX
// is hexadecimal. Below, REFUSED is `refused N` with ` v` for each value that rule N names; LETTERS is a word by `to_text` at the n in force; a list
// is printed with a space before each member. Lent lists are all nines before.
//
// | line                            | does                                                      | prints                                             |
// |---------------------------------|-----------------------------------------------------------|----------------------------------------------------|
// | nothing, or `#` and any text    | nothing                                                   | itself                                             |
// | `group N t t .. / o o ..`       | try_from_generators; the group is in force, after a       | `accepted` or REFUSED                              |
// |                                 | refusal one that every call refuses                       |                                                    |
// | `chain a`, `ladder a b`,        | the lattice, likewise                                     | likewise                                           |
// | `torus2 a b`, `torus3 a b c`    |                                                           |                                                    |
// | `set sites V`, `generators V`,  | writes into the group value: forging                      | `set`                                              |
// | `set order I V`, `target I V`   |                                                           |                                                    |
// | `set n V`, `set length V`       | writes the word's n; cuts its bytes, or adds zeros        | `set`                                              |
// | `set index V`                   | writes the walk's index                                   | `set`                                              |
// | `set cosine J V`, `sine J V`    | writes into entry J of the phase table, V signed 64       | `set`                                              |
// | `order`, `modulus`, `invert I`  | order, phase_modulus, invert_index                        | the number or REFUSED                              |
// | `targets`                       | nothing                                                   | `/` and its targets for each generator             |
// | `counter I K`                   | counter_from_index into K places                          | `done:` or `REFUSED:`, the list                    |
// | `index d d ..`                  | index_from_counter                                        | the number or REFUSED                              |
// | `word TEXT`                     | from_text; the word is in force, after a refusal one of   | n or REFUSED                                       |
// |                                 | zeros, n 0                                                |                                                    |
// | `bytes N HEX`                   | nothing: n and these bytes are in force                   | `set`                                              |
// | `old`                           | nothing: the word, in full, is in force in the old form,  | `set`                                              |
// |                                 | the first OLD_PLANE_BYTES of either plane                 |                                                    |
// | `text`, `weight`                | to_text, weight                                           | LETTERS or the number, or REFUSED                  |
// | `compare HEX`                   | compare, with these bytes                                 | `less`, `same`, `greater` or REFUSED               |
// | `compare_text TEXT`             | the same with the word of a text                          | likewise                                           |
// | `canonicalize`                  | canonicalize                                              | LETTERS or REFUSED                                 |
// | `with_index`                    | canonicalize_with_index                                   | `LETTERS index` or REFUSED                         |
// | `at I`                          | word_at_index                                             | LETTERS; or REFUSED and `, zeros`                  |
// | `with_shift K`                  | canonicalize_with_shift into K places                     | `LETTERS:` or `REFUSED:`, the list                 |
// | `orbit_list L`                  | orbit_list into L bytes                                   | `done:` and the words; REFUSED, `, as it was` or   |
// |                                 |                                                           | `, changed`                                        |
// | `orbit`                         | orbit; the walk is in force, after a refusal one whose    | `begun` or REFUSED                                 |
// |                                 | steps are refused                                         |                                                    |
// | `next K`                        | K steps of the walk                                       | parted by `; `: `I LETTERS`, `finished`, REFUSED   |
// | `modes k k ..`                  | nothing: these are in force                               | `set`                                              |
// | `numerator d d ..`              | character_numerator                                       | the number or REFUSED                              |
// | `table L`                       | character_table into L places                             | `done:` or `REFUSED:`, the list                    |
// | `sector K`                      | canonicalize_in_sector into K places                      | `kept SIZE LETTERS:`, `dropped INDEX:` or          |
// |                                 |                                                           | `REFUSED:`, the list                               |
// | `beside K`                      | canonicalize, with_index, with_shift and in_sector, the   | for each the word of its answer, LETTERS; `zeros`  |
// |                                 | last two into K places                                    | where it is zeros or there is none                 |
// | `clear`                         | nothing: no rows                                          | `set`                                              |
// | `row HEX`, `rows K HEX`         | nothing: the word, cut or filled up to WORD_BYTES, with   | `set`                                              |
// |                                 | the float of these bits, or `nan`, and the whole number   |                                                    |
// |                                 | 0 is a row more, or K                                     |                                                    |
// | `whole C`, `wholes K C`         | nothing: likewise with the float 0.0 and the whole number | `set`                                              |
// |                                 | C, signed 64                                              |                                                    |
// | `numbered K`                    | nothing: K rows, each its number, in binary digits as X   | `set`                                              |
// |                                 | from site 0 on, as a float and as a whole number          |                                                    |
// | `old_rows`                      | nothing: the words of the rows are written again, each    | `set`                                              |
// |                                 | in the old form, one after the other from the front       |                                                    |
// | `sum`                           | canonicalize_pauli_sum                                    | `N rows:` and ` LETTERS HEX COUNT` for each; or    |
// |                                 |                                                           | REFUSED and `, as they were`, `, zeros` or         |
// |                                 |                                                           | `, changed`                                        |
// | `sum W R P S C`                 | the same with lists of these lengths: bytes of words,     | likewise                                           |
// |                                 | coefficients, bytes of representatives, sums, counts      |                                                    |
// | `sum_at A B`                    | as `sum`                                                  | of the lists the rows A to B - 1, zeros too        |
// | `phase_table`                   | phase_table; it is in force                               | `set`                                              |
// | `phase_file TEXT`               | read_phase_table; the table is in force, after a refusal  | `accepted` or REFUSED, and then `, constant` or    |
// |                                 | the constant one. TEXT is as for `sheet`, and besides     | `, another`, whether that table is the constant    |
// |                                 | `[A:B]` stands for lines A to B of the constant table's   | one, all numbers compared                          |
// |                                 | print, line 1 with the names and line j + 2 with entry j  |                                                    |
// | `phase J`                       | nothing                                                   | the cosine and the sine of entry J, `C S`          |
// | `project`                       | project_pauli_sum, by the table, with the whole numbers   | `K kept, D dropped:` and ` LETTERS COSINE SINE`    |
// |                                 |                                                           | for each row of the table, ` and more after them`  |
// |                                 |                                                           | if the rest is not zeros; or REFUSED and           |
// |                                 |                                                           | `, as they were` or `, changed`                    |
// | `project W R P C S`             | the same with lists of these lengths: bytes of words,     | likewise                                           |
// |                                 | coefficients, bytes of representatives, cosines, sines    |                                                    |
// | `project_at A B`                | as `project`                                              | of the lists the rows A to B - 1, zeros too        |
// | `words`                         | canonicalize_words, on the words of the rows              | `N rows:` and ` LETTERS INDEX` for each; or        |
// |                                 |                                                           | REFUSED and `, as they were` or `, changed`        |
// | `words W P I`                   | the same with lists of these lengths: bytes of words,     | likewise                                           |
// |                                 | bytes of representatives, places of indices               |                                                    |
// | `words_at A B`                  | as `words`                                                | of the lists the rows A to B - 1                   |
// | `sector_words`                  | sector_words, on the words of the rows                    | `N rows:` and ` LETTERS INDEX SIZE` for each, of a |
// |                                 |                                                           | dropped one ` - INDEX 0`, and LETTERS where its    |
// |                                 |                                                           | word is not zeros; or REFUSED as for `words`       |
// | `sector_words W P I S`          | the same with lists of these lengths: as for `words`,     | likewise                                           |
// |                                 | and places of sizes                                       |                                                    |
// | `sector_words_at A B`           | as `sector_words`                                         | of the lists the rows A to B - 1                   |
// | `sheet TEXT`                    | sheet_text; in TEXT `|` is byte 10, `\HH` a byte in       | what the sheet prints, `|` for byte 10             |
// |                                 | hexadecimal, `{K:TEXT}` K times TEXT                      |                                                    |
// | `sheet_end TEXT`                | the same                                                  | the lengths of the sheet and of what it prints,    |
// |                                 |                                                           | and the last bytes of that                         |
// | `sheet_in L TEXT`               | the same into a list of L dots                            | `table LENGTH:`, `REFUSED at line LINE, LENGTH:`   |
// |                                 |                                                           | or `refused 21:`, and the list                     |
// | any other                       | nothing                                                   | `?`                                                |
//
// A line too long, a last line without its end and an input that cannot be read print `?` too.
#![tactic(auto)]

mod answer;
mod forge;
mod input;
mod state;

use std::alloc::Global;
use std::io;
use std::io::{Read, Write};

// Answers each line of an input.
pub fn run<R: Read, W: Write>(alloc: Global, input: &mut R, output: &mut W) -> io::Result<()> {
    input::run(alloc, input, output)
}
