// extensions_padding, by the arithmetic of header.rs.
ghost use Rattle.std.specs.Prelude.{◌≡◌, ◌≤◌};
ghost use Rattle.block.specs.Padding.{grown, resized};

// The block grew by n.
// Stays: the record that C sees holds any number, so each call asks for one in the domain; so in this file.
pub fn grow(padding: usize, n: usize) -> usize
    requires { padding ≤ 262140 }
    ensures { result ≡ grown padding n }
{
    let rest = n % 4;
    if padding < rest {
        return padding + 4 - rest;
    }
    padding - rest
}

// Data of `new` bytes came in the place of `old` bytes.
pub fn resize(padding: usize, old: usize, new: usize) -> usize
    requires padding_bound { padding ≤ 262140 }
    requires bound { old ≤ 1024 }
    ensures { result ≡ resized padding old new }
{
    if new < old {
        return (padding + (old - new)) % 4;
    }
    grow(padding, new - old)
}
