// The modes of a part.
ghost use Rattle.std.specs.Prelude.{◌≡◌, ◌≤◌, eqb, length, take};
ghost use Rattle.parts.specs.Labels.{chosen};

// Writes the modes of the generators with a part's label, in their order; how many there are.
pub fn take_modes(modes: &[i32], labels: &[u16], part: usize, own: &mut [i32]) -> usize
    requires { (length modes.now ≡ length labels.now) × (length labels.now ≤ length own.old) }
    ensures few { result ≤ length own.old }
    ensures modes { take result own.new ≡ chosen (λ l. eqb l part) labels.now modes.now }
{
    let mut k: usize = 0;
    for g in 0..labels.len() {
        if labels[g] as usize == part {
            let mode = modes[g];
            own[k] = mode;
            k += 1;
        }
    }
    k
}
