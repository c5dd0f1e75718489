// Parts of a slice, as far as it goes.
ghost use Rattle.std.specs.Prelude.{◌≡◌, take, drop};

// The first n bytes.
pub fn front(s: &[u8], n: usize) -> &[u8]
    ensures { result.now ≡ take n s.now }
{
    &s[..n.min(s.len())]
}

// The n bytes from a place on.
pub fn part(s: &[u8], at: usize, n: usize) -> &[u8]
    ensures { result.now ≡ take n (drop at s.now) }
{
    front(&s[at.min(s.len())..], n)
}
