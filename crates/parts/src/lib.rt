// How many parts a length makes, by doubling and halving alone: the stage box's core divides in software.
//
// Only proved code calls this crate, so its function may ask for lengths within the limits.
#![tactic(auto)]

ghost use Rattle.std.specs.Prelude.{◌≡◌, ◌+◌, ◌-◌, ◌/◌, ◌<◌, ◌≤◌};

// How many parts of `size` bytes `len` bytes make, the last perhaps shorter: long division, in binary.
// Stays: `len.div_ceil(size)` would divide, and the stage box divides in software.
pub fn count(len: usize, size: usize) -> usize
    requires len_nonzero { (0 < len) × (len ≤ 16777216) }
    requires size_nonzero { (0 < size) × (size ≤ 16777216) }
    ensures { (result ≡ (len - 1) / size + 1) × (result ≤ len) }
{
    let mut step = size;
    while step < len {
        step = 2 * step;
    }
    // so many steps are taken; some bytes are left, a step's at most
    let mut taken = 0;
    let mut left = len;
    while size < step {
        step = step / 2;
        taken = 2 * taken;
        if step < left {
            left -= step;
            taken += 1;
        }
    }
    taken + 1
}
