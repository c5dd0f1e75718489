// A header by its parts: the fixed fields by value, the arrays of its record lent.
// Stays: C hands a record over so, its arrays beside their counts, and no record is copied.
ghost use Rattle.std.specs.Prelude.{◌≡◌, true, [], ◌≤◌, length, take};
ghost use Rattle.error.specs.Said.{said};
ghost use Rattle.wire.specs.Part.{Put};
ghost use Rattle.elements.specs.Elements.{Packed, elements_in, sum};
ghost use Rattle.block.specs.Form.{form_of, length_for};
ghost use Rattle.block_write.specs.Write.{all_writable};
ghost use Rattle.header_write.specs.Parts.{Whole, measured, octets_for};

use crate::figure::put_csrcs;
use crate::{Fixed, Parts};
use block::Form;
use block_write::{put_extension, weigh};
use error::Error;

// How many bytes the elements take with their heads, where all of it is in the domain of writing.
// Stays: functions and no methods, since `header` lends `Parts` on, and no public call asks for room.
pub fn measure(parts: Parts<'_>) -> Result<usize, Error>
    ensures value { said result ≡ measured parts.entry.fixed parts.entry.csrc_count parts.entry.profile parts.entry.count parts.entry.ids.now parts.entry.lens.now parts.entry.padding }
    ensures whole { Whole parts.entry }
{
    // a slice tells its length
    let csrc = parts.csrc;
    let csrc: &[u32] = csrc;
    let ids = parts.ids;
    let names: &[u8] = ids;
    let lens = parts.lens;
    let sizes: &[u16] = lens;
    let bytes = parts.bytes;
    let bytes: &[u8] = bytes;
    if 15 < parts.csrc_count || 32 < parts.count || 262140 < parts.padding {
        return Err(Error::OutsideDomain);
    }
    if 3 < parts.fixed.version || 127 < parts.fixed.payload_type {
        return Err(Error::OutsideDomain);
    }
    let form = Form::from(parts.profile);
    match weigh(form, parts.count, ids, lens) {
        Some(bytes) if bytes <= 1024 => Ok(bytes + parts.count * form.per_element()),
        _ => Err(Error::OutsideDomain),
    }
}

// All that is written for a header whose elements take `len` bytes with their heads.
pub fn put_header(parts: Parts<'_>, buf: &mut [u8], len: usize) -> usize
    requires version_bound { (parts.fixed.version ≤ 3) × (parts.fixed.payload_type ≤ 127) }
    requires csrc_count_bound { (parts.csrc_count ≤ 15) × (parts.csrc_count ≤ length parts.csrc.now) }
    requires packed { Packed parts.count parts.ids.now parts.lens.now parts.bytes.now }
    requires bytes_value { all_writable (form_of parts.profile) (elements_in parts.count parts.ids.now parts.lens.now parts.bytes.now) ≡ true }
    requires len_value { (len ≡ length_for parts.profile parts.count (sum (take parts.count parts.lens.now))) × (len ≤ 1088) }
    requires bytes_in_bounds { length (octets_for parts.fixed (take parts.csrc_count parts.csrc.now) parts.profile len (elements_in parts.count parts.ids.now parts.lens.now parts.bytes.now)) ≤ length buf.old }
    ensures { Put buf.old 0 (octets_for parts.entry.fixed (take parts.entry.csrc_count parts.entry.csrc.now) parts.entry.profile len (elements_in parts.entry.count parts.entry.ids.now parts.entry.lens.now parts.entry.bytes.now)) result buf.new }
{
    let csrc = parts.csrc;
    parts.fixed.put(buf, parts.csrc_count);
    let at = put_csrcs(buf, 12, &csrc[..parts.csrc_count]);
    if parts.fixed.extension {
        let ids = parts.ids;
        let lens = parts.lens;
        let bytes = parts.bytes;
        return put_extension(buf, at, parts.profile, len, parts.count, ids, lens, bytes);
    }
    at
}

// The same for a header without CSRCs and elements.
pub fn put_bare(buf: &mut [u8], fixed: Fixed, profile: u16) -> usize
    requires version_bound { (fixed.version ≤ 3) × (fixed.payload_type ≤ 127) }
    requires profile_in_bounds { length (octets_for fixed [] profile 0 []) ≤ length buf.old }
    ensures { Put buf.old 0 (octets_for fixed [] profile 0 []) result buf.new }
{
    fixed.put(buf, 0);
    if fixed.extension {
        wire::put_u16(buf, 12, profile);
        wire::put_u16(buf, 14, 0);
        return 16;
    }
    12
}
