// Writing a block of extension elements.
//
// Only proved code calls this crate, so its functions may ask that the buffer has room.
#![tactic(auto)]

ghost use Rattle.std.specs.Prelude.{◌≡◌, true, ◌+◌, ◌≤◌, length, take};
ghost use Rattle.elements.specs.Elements.{Packed, elements_in, sum};
ghost use Rattle.block.specs.Form.{form_of, length_for};
ghost use Rattle.wire.specs.Part.{Put};
ghost use Rattle.block_write.specs.Write.{element_octets, block_octets, extension_for, fits, weight, all_writable};

use block::Form;

// Whether an element of this id and length can be written.
fn fits(form: Form, id: u8, len: u16) -> bool
    ensures { result ≡ fits form id len }
{
    match form {
        Form::OneByte => id <= 15 && 1 <= len && len <= 16,
        Form::TwoByte => len <= 255,
        Form::Other => true,
    }
}

// How many data bytes the first `count` elements have, where all of them can be written.
// Stays: the arrays by themselves, since `Parts`, which lends them, is header_write's, which uses this crate; so in all of this file.
// Stays: one of them by its index, since `zip` has an arm for a second one that ends first, and both have `count`; so in `put_elements`.
pub fn weigh(form: Form, count: usize, ids: &[u8; 32], lens: &[u16; 32]) -> Option<usize>
    requires { count ≤ 32 }
    ensures { result ≡ weight form (take count ids.now) (take count lens.now) }
{
    let mut bytes = 0;
    for (i, id) in ids[..count].iter().enumerate() {
        if !fits(form, *id, lens[i]) {
            return None;
        }
        bytes += usize::from(lens[i]);
    }
    Some(bytes)
}

// RFC 8285, 4.2 and 4.3: the head of a one-byte and of a two-byte element, before its data.
//
//  0 1 2 3 4 5 6 7
// +-+-+-+-+-+-+-+-+
// |  ID   |  len  |
// +-+-+-+-+-+-+-+-+
//
//  0 1 2 3 4 5 6 7 8 9 0 1 2 3 4 5
// +-+-+-+-+-+-+-+-+-+-+-+-+-+-+-+-+
// |       ID      |     length    |
// +-+-+-+-+-+-+-+-+-+-+-+-+-+-+-+-+
fn put_element(buf: &mut [u8], at: usize, form: Form, id: u8, data: &[u8]) -> usize
    requires data_value { fits form id (length «data».now) ≡ true }
    requires data_in_bounds { at + length (element_octets form (record { id = id; bytes = «data».now })) ≤ length buf.old }
    ensures { Put buf.old at (element_octets form (record { id = id; bytes = «data».now })) result buf.new }
{
    let len = data.len();
    match form {
        Form::OneByte => {
            buf[at] = id * 16 + (len - 1) as u8;
            wire::copy_at(data, buf, at + 1);
            at + 1 + len
        }
        Form::TwoByte => {
            buf[at] = id;
            buf[at + 1] = len as u8;
            wire::copy_at(data, buf, at + 2);
            at + 2 + len
        }
        Form::Other => {
            wire::copy_at(data, buf, at);
            at + len
        }
    }
}

// The elements, each behind the other.
fn put_elements<'a>(
    buf: &mut [u8],
    start: usize,
    form: Form,
    count: usize,
    ids: &'a [u8],
    lens: &'a [u16],
    bytes: &'a [u8],
) -> usize
    requires packed { Packed count ids.now lens.now bytes.now }
    requires bytes_value { all_writable form (elements_in count ids.now lens.now bytes.now) ≡ true }
    requires bytes_in_bounds { start + length (block_octets form (elements_in count ids.now lens.now bytes.now)) ≤ length buf.old }
    ensures { Put buf.old start (block_octets form (elements_in count ids.now lens.now bytes.now)) result buf.new }
{
    let mut at = start;
    let mut used = 0;
    for (i, id) in ids[..count].iter().enumerate() {
        let end = used + usize::from(lens[i]);
        at = put_element(buf, at, form, *id, &bytes[used..end]);
        used = end;
    }
    at
}

// RFC 3550, 5.3.1, with the elements, which take `len` bytes with their heads, and zeros up to a whole word.
//
//  0                   1                   2                   3
//  0 1 2 3 4 5 6 7 8 9 0 1 2 3 4 5 6 7 8 9 0 1 2 3 4 5 6 7 8 9 0 1
// +-+-+-+-+-+-+-+-+-+-+-+-+-+-+-+-+-+-+-+-+-+-+-+-+-+-+-+-+-+-+-+-+
// |      defined by profile       |           length              |
// +-+-+-+-+-+-+-+-+-+-+-+-+-+-+-+-+-+-+-+-+-+-+-+-+-+-+-+-+-+-+-+-+
// |                        header extension                       |
// |                             ....                              |
pub fn put_extension<'a>(
    buf: &mut [u8],
    at: usize,
    profile: u16,
    len: usize,
    count: usize,
    ids: &'a [u8],
    lens: &'a [u16],
    bytes: &'a [u8],
) -> usize
    requires packed { Packed count ids.now lens.now bytes.now }
    requires bytes_value { all_writable (form_of profile) (elements_in count ids.now lens.now bytes.now) ≡ true }
    requires len_value { (len ≡ length_for profile count (sum (take count lens.now))) × (len ≤ 1088) }
    requires bytes_in_bounds { at + length (extension_for profile len (elements_in count ids.now lens.now bytes.now)) ≤ length buf.old }
    ensures { Put buf.old at (extension_for profile len (elements_in count ids.now lens.now bytes.now)) result buf.new }
{
    wire::put_u16(buf, at, profile);
    let words = (len + 3) / 4;
    wire::put_u16(buf, at + 2, words as u16);
    let form = Form::from(profile);
    let end = put_elements(buf, at + 4, form, count, ids, lens, bytes);
    wire::fill_at(buf, end, words * 4 - len, 0);
    at + 4 + words * 4
}
