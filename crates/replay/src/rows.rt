// Rows taken apart; rust/rows/README.md has their form.
//
// A field is a length of two bytes in network order and so many bytes. A list is its rows, each a field; a row is two fields, the
// question and the answer, which are again fields. A number is in network order and has as many bytes as it needs.
ghost use Rattle.std.specs.Iterator.{at_most};
ghost use Rattle.std.specs.Prelude.{◌<◌, ◌≤◌, length};

// What lent buffers hold beforehand, and the places of a record's arrays behind its counts.
pub const FILL: u8 = 0xA5;

// The fields that bytes are.
#[derive(Drop)]
pub struct Fields<'a>(pub &'a [u8]);

impl<'a> Iterator for Fields<'a> {
    type Item = &'a [u8];

    ghost remaining = { λ s. at_most (length s.0.now) };

    fn next(&mut self) -> Option<&'a [u8]> {
        if self.0.is_empty() {
            return None;
        }
        let (field, behind) = first(self.0);
        self.0 = behind;
        Some(field)
    }
}

// The first field without its length, and what stands behind it: where there is no whole one, all and nothing.
fn first(s: &[u8]) -> (&[u8], &[u8])
    ensures { 0 < length s.now → length result.1.now < length s.now }
{
    match s.split_first_chunk::<2>() {
        Some((len, rest)) if usize::from(u16::from_be_bytes(*len)) <= rest.len() => {
            rest.split_at(usize::from(u16::from_be_bytes(*len)))
        }
        _ => (s, b""),
    }
}

// What stands behind the first n fields.
pub fn rest(s: &[u8], n: usize) -> &[u8] {
    let mut fields = Fields(s);
    for _ in 0..n {
        fields.next();
    }
    fields.0
}

// The field with n before it: empty where there is none.
pub fn field(s: &[u8], n: usize) -> &[u8] {
    first(rest(s, n)).0
}

// Of a number of more than eight bytes no more are read.
pub fn number(s: &[u8], n: usize) -> usize {
    field(s, n).iter().fold(0, |x, digit| {
        if x < 72057594037927936 {
            x * 256 + usize::from(*digit)
        } else {
            x
        }
    })
}

pub fn flag(s: &[u8], n: usize) -> bool {
    number(s, n) == 1
}

// Stays: one function for `byte`, `short` and `word` would need a trait with three impls that hold these three lines.
pub fn byte(s: &[u8], n: usize) -> u8 {
    (number(s, n) % 256) as u8
}

pub fn short(s: &[u8], n: usize) -> u16 {
    (number(s, n) % 65536) as u16
}

pub fn word(s: &[u8], n: usize) -> u32 {
    (number(s, n) % 4294967296) as u32
}

// How many places of a buffer are lent: it has 2,048.
pub fn room(asked: usize) -> usize
    ensures { result ≤ 2048 }
{
    asked.min(2048)
}

// Puts the bytes in front of the places, as far as there are any.
pub fn lay(bytes: &[u8], places: &mut [u8]) {
    for (place, byte) in places.iter_mut().zip(bytes) {
        *place = *byte;
    }
}

// Of bytes that are words, the one with i before it.
pub fn nth(bytes: &[u8], i: usize) -> Option<u32> {
    let (words, _) = bytes.as_chunks::<4>();
    words.get(i).map(|word| u32::from_be_bytes(*word))
}
