// Two decisions put together: that of the parts before, and a part's own.
ghost use Rattle.std.specs.Prelude.{◌≡◌, ◌*◌, ◌≤◌};
ghost use Rattle.permutation.specs.Limits.{max_order};
ghost use Rattle.sector_parts.specs.Steps.{joined_index};

// The index of both, each an index of the whole; a size of 0 says that the word is dropped.
pub fn joined_index(index: usize, size: usize, own: usize, orbit: usize) -> usize
    requires { (index ≤ max_order) × (own ≤ max_order) }
    ensures { result ≡ joined_index index size own orbit }
{
    if size == 0 {
        if orbit != 0 {
            return index;
        }
        if own < index {
            return own;
        }
        return index;
    }
    if orbit == 0 {
        return own;
    }
    index + own
}

// The orbit size of both; 0 where either drops the word.
pub fn joined_size(size: usize, orbit: usize) -> usize
    requires { (size ≤ max_order) × (orbit ≤ max_order) }
    ensures { result ≡ size * orbit }
{
    size * orbit
}
