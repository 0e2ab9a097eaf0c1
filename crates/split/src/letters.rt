// The letters of a word at the places of a table, as codes: taken out, and put back.
ghost use Rattle.std.specs.Prelude.{◌≡◌, ℕ, ◌≤◌, ◌<◌, length, get_or};
ghost use Rattle.pauli_word.specs.Word.{I, Word};
ghost use Rattle.elements.specs.Letters.{codes as codes_of};
ghost use Rattle.parts.specs.Numbered.{read_by};

// The codes at the places of a table.
pub fn take_out(codes: &[u8], table: &[u16], out: &mut [u8])
    requires out_in_bounds { length out.old ≤ length table.now }
    requires by_index { (a : ℕ) → a < length out.old → get_or table.now a 0 < length codes.now }
    ensures { (w : Word) → codes.now ≡ codes_of w → out.new ≡ codes_of (read_by (length out.old) (λ a. get_or table.now a 0) w) }
{
    for a in 0..out.len() {
        let q = table[a] as usize;
        out[a] = codes[q];
    }
}

// Puts codes at the places of a table.
pub fn put_back(part: &[u8], table: &[u16], codes: &mut [u8])
    requires part_in_bounds { length part.now ≤ length table.now }
    requires by_index { (a : ℕ) → a < length part.now → get_or table.now a 0 < length codes.old }
    requires by_index_2 { (a b : ℕ) → a < length part.now → b < length part.now → get_or table.now a 0 ≡ get_or table.now b 0 → a ≡ b }
    ensures { (u v w : Word) → part.now ≡ codes_of u → codes.old ≡ codes_of v → length w ≡ length v
        → ((a : ℕ) → a < length u → get_or w (get_or table.now a 0) I ≡ get_or u a I)
        → ((q : ℕ) → q < length v → ((a : ℕ) → a < length u → get_or table.now a 0 ≡ q → ⊥) → get_or w q I ≡ get_or v q I)
        → codes.new ≡ codes_of w }
{
    for a in 0..part.len() {
        let q = table[a] as usize;
        codes[q] = part[a];
    }
}
