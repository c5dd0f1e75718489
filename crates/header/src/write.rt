// Writing a header. Everything is judged before the first byte is written.
ghost use Rattle.std.specs.Prelude.{◌≡◌, length};
ghost use Rattle.header.specs.Parts.{fixed_of, record_of, bare};
ghost use Rattle.header.specs.Write.{in_writing_domain, write_header};
ghost use Rattle.header.specs.Said.{heard_written, written};

use crate::{Fixed, Header, Parts};
use error::Error;
use header_write::{judge, measure, put_bare, put_header, size_of};

// By the parts of a record: its fixed fields and its numbers by value, its arrays lent.
pub fn marshal_parts(parts: Parts<'_>, buf: &mut [u8]) -> Result<usize, Error>
    ensures { heard_written result buf.new
        ≡ written buf.old (write_header (record_of parts.entry) (length buf.old)) }
{
    let len = measure(parts)?;
    if buf.len() < size_of(parts.csrc_count, parts.fixed.extension, len, parts.padding) {
        return Err(Error::ErrBufferTooSmall);
    }
    judge(parts.fixed.extension, parts.profile, len, parts.count)?;
    Ok(put_header(parts, buf, len))
}

// A record without CSRCs and elements.
// Stays: the limits are tested here again, since `measure` takes the arrays too, which a bare header has not.
pub fn marshal_bare(
    fixed: Fixed,
    profile: u16,
    padding: usize,
    buf: &mut [u8],
) -> Result<usize, Error>
    ensures { heard_written result buf.new ≡ written buf.old (write_header (bare fixed profile padding) (length buf.old)) }
{
    if 3 < fixed.version || 127 < fixed.payload_type || 262140 < padding {
        return Err(Error::OutsideDomain);
    }
    if buf.len() < size_of(0, fixed.extension, 0, padding) {
        return Err(Error::ErrBufferTooSmall);
    }
    judge(fixed.extension, profile, 0, 0)?;
    Ok(put_bare(buf, fixed, profile))
}

impl Header {
    // The record's first fields.
    // Stays: field by field, since the record that C sees has these fields by themselves.
    pub fn fixed(self) -> Fixed
        ensures { result ≡ fixed_of self }
    {
        Fixed {
            version: self.version,
            padding: self.padding,
            extension: self.extension,
            marker: self.marker,
            payload_type: self.payload_type,
            sequence_number: self.sequence_number,
            timestamp: self.timestamp,
            ssrc: self.ssrc,
        }
    }

    // The record in parts.
    pub fn parts(&self) -> Parts<'_>
        ensures { record_of result ≡ self.now }
    {
        Parts {
            fixed: self.fixed(),
            csrc_count: self.csrc_count,
            csrc: &self.csrc,
            profile: self.extension_profile,
            count: self.extensions.count,
            ids: &self.extensions.ids,
            lens: &self.extensions.lens,
            bytes: &self.extensions.bytes,
            padding: self.extensions_padding,
        }
    }

    // Whether the record is in the domain of writing.
    pub fn is_writable(self) -> bool
        ensures { result ≡ in_writing_domain self }
    {
        measure(self.parts()).is_ok()
    }

    pub fn marshal_to(self, buf: &mut [u8]) -> Result<usize, Error>
        ensures { heard_written result buf.new ≡ written buf.old (write_header self (length buf.old)) }
    {
        marshal_parts(self.parts(), buf)
    }
}
