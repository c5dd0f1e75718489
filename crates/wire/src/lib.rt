// Bytes at a place of a lent slice: numbers in network order, copies and fills.
//
// Only proved code calls this crate, so its functions may ask that the place is there.
#![tactic(auto)]

ghost use Rattle.std.specs.Prelude.{◌≡◌, ◌+◌, ◌<◌, ◌≤◌, length, replicate};
ghost use Rattle.wire.specs.Net.{u16_at, u32_at, be16, be32};
ghost use Rattle.wire.specs.Part.{splice};

#[tactic(auto, unfolding(crate::specs::Net::u16_at))]
pub fn get_u16(s: &[u8], at: usize) -> u16
    requires { at + 2 ≤ length s.now }
    ensures { result ≡ u16_at s.now at }
{
    u16::from_be_bytes([s[at], s[at + 1]])
}

#[tactic(auto, unfolding(crate::specs::Net::u32_at))]
pub fn get_u32(s: &[u8], at: usize) -> u32
    requires { at + 4 ≤ length s.now }
    ensures { result ≡ u32_at s.now at }
{
    u32::from_be_bytes([s[at], s[at + 1], s[at + 2], s[at + 3]])
}

// Stays: one function for each width, as for reading, since the library has `to_be_bytes` and `from_be_bytes` in no trait.
#[tactic(auto, using(crate::proofs::Part::put_whole), unfolding(crate::specs::Net::be16))]
pub fn put_u16(s: &mut [u8], at: usize, n: u16)
    requires { at + 2 ≤ length s.old }
    ensures { s.new ≡ splice s.old at (be16 n) }
{
    s[at..at + 2].copy_from_slice(&n.to_be_bytes());
}

#[tactic(auto, using(crate::proofs::Part::put_whole), unfolding(crate::specs::Net::be32))]
pub fn put_u32(s: &mut [u8], at: usize, n: u32)
    requires { at + 4 ≤ length s.old }
    ensures { s.new ≡ splice s.old at (be32 n) }
{
    s[at..at + 4].copy_from_slice(&n.to_be_bytes());
}

// Copies all of src to the places of dst from at on.
// Stays: a loop, which the compiler turns into vectors in place: `copy_from_slice` is a call of `memmove`, dear for a few bytes.
pub fn copy_at(src: &[u8], dst: &mut [u8], at: usize)
    requires { at + length src.now ≤ length dst.old }
    ensures { dst.new ≡ splice dst.old at src.now }
{
    for (i, b) in src.iter().enumerate() {
        dst[at + i] = *b;
    }
}

// Sets the len places of dst from at on to b.
// Stays: the part is said by its place and length, so that the law of `splice` says what becomes of the whole.
#[tactic(auto, using(crate::proofs::Part::put_whole))]
pub fn fill_at(dst: &mut [u8], at: usize, len: usize, b: u8)
    requires { at + len ≤ length dst.old }
    ensures { dst.new ≡ splice dst.old at (replicate len b) }
{
    dst[at..at + len].fill(b);
}
