// The size of a header.
ghost use Rattle.std.specs.Prelude.{◌≡◌, ◌≤◌};
ghost use Rattle.header_write.specs.Size.{size_for};

// The size of a record in the domain whose elements take `len` bytes with their heads.
// Stays: the bit is a bool in the record that C sees.
pub fn size_of(csrc_count: usize, extension: bool, len: usize, padding: usize) -> usize
    requires csrc_count_bound { csrc_count ≤ 15 }
    requires len_bound { len ≤ 1088 }
    requires padding_bound { padding ≤ 262140 }
    ensures { result ≡ size_for csrc_count extension len padding }
{
    let head_size = 12 + csrc_count * 4;
    if extension {
        let words = (len + padding + 3) / 4;
        return head_size + 4 + words * 4;
    }
    head_size
}
