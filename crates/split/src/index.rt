// The index of the whole by that of a part.
ghost use Rattle.std.specs.Prelude.{◌≡◌, eqb, length};
ghost use Rattle.elements.specs.HeldGroup.{HoldsGroup, generators_held};
ghost use Rattle.parts.specs.Labels.{spread as spreadBy};

use permutation::Lent;

// The index that has the digits of an index of a part at the generators with its label, and 0 at the others.
pub fn spread(group: &Lent<'_>, labels: &[u16], part: usize, index: usize) -> usize
    requires tables { HoldsGroup group.now }
    requires labels_len { length labels.now ≡ group.now.generators }
    ensures { result ≡ spreadBy (λ l. eqb l part) labels.now (generators_held group.now) index }
{
    let Lent {
        orders,
        generators,
        ..
    } = *group;
    let mut rest = index;
    let mut place: usize = 1;
    let mut out: usize = 0;
    for g in 0..generators {
        let o = orders[g] as usize;
        if labels[g] as usize == part {
            out = out + rest % o * place;
            rest = rest / o;
        }
        place = place * o;
    }
    out
}
