// The list of elements in its record.
ghost use Rattle.std.specs.Prelude.{◌≡◌, [], ◌+◌, ◌<◌, ◌≤◌, length, take};
ghost use Rattle.elements.specs.Elements.{lay_elements, pushed, sum};

use crate::Extensions;

impl Extensions {
    pub fn new() -> Self
        ensures { result ≡ lay_elements [] }
    {
        Extensions {
            count: 0,
            ids: [0; 32],
            lens: [0; 32],
            bytes: [0; 1024],
        }
    }
}

// One element more, behind the `used` data bytes of the others.
pub fn push(mut list: Extensions, used: usize, id: u8, data: &[u8]) -> Extensions
    requires count_bound { list.count < 32 }
    requires data_bound { used + length «data».now ≤ 1024 }
    ensures { result ≡ pushed list used id «data».now }
{
    list.ids[list.count] = id;
    list.lens[list.count] = data.len() as u16;
    list.bytes[used..used + data.len()].copy_from_slice(data);
    list.count += 1;
    list
}

// How many data bytes the first `count` elements have.
// Stays: the array by itself, since `Parts`, which lends it, is header_write's, which uses this crate.
pub fn total(count: usize, lens: &[u16; 32]) -> usize
    requires { count ≤ 32 }
    ensures { result ≡ sum (take count lens.now) }
{
    let mut n = 0;
    for len in &lens[..count] {
        n += usize::from(*len);
    }
    n
}
