// The limits of the domain.
ghost use Rattle.std.specs.Prelude.{◌≡◌};
ghost use Rattle.header_write.specs.Limits.{in_limits};

use elements::total;

// Whether a record's counts, lengths and extensions_padding are in the domain.
// Stays: asked of a record in its four numbers and one array too, where making all of its parts would be no plainer.
pub fn in_limits(csrc_count: usize, count: usize, lens: &[u16; 32], padding: usize) -> bool
    ensures { result ≡ in_limits csrc_count count lens.now padding }
{
    csrc_count <= 15 && count <= 32 && total(count, lens) <= 1024 && padding <= 262140
}
