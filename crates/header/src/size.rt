// The size of a header, of its record and of the parts of one.
ghost use Rattle.std.specs.Prelude.{◌≡◌};
ghost use Rattle.error.specs.Said.{said};
ghost use Rattle.header.specs.Parts.{record_of};
ghost use Rattle.header.specs.Size.{length_asked, size_asked};

use crate::look::in_domain;
use crate::{Header, Parts};
use block::Form;
use error::Error;
use header_write::size_of;

pub fn get_extension_payload_len_parts(parts: Parts<'_>) -> Result<usize, Error>
    ensures { said result ≡ length_asked (record_of parts.entry) }
{
    if !in_domain(parts) {
        return Err(Error::OutsideDomain);
    }
    Ok(Form::from(parts.profile).payload_len(parts.count, parts.lens))
}

pub fn marshal_size_parts(parts: Parts<'_>) -> Result<usize, Error>
    ensures { said result ≡ size_asked (record_of parts.entry) }
{
    if !in_domain(parts) {
        return Err(Error::OutsideDomain);
    }
    let len = Form::from(parts.profile).payload_len(parts.count, parts.lens);
    Ok(size_of(parts.csrc_count, parts.fixed.extension, len, parts.padding))
}

impl Header {
    pub fn get_extension_payload_len(self) -> Result<usize, Error>
        ensures { said result ≡ length_asked self }
    {
        get_extension_payload_len_parts(self.parts())
    }

    pub fn marshal_size(self) -> Result<usize, Error>
        ensures { said result ≡ size_asked self }
    {
        marshal_size_parts(self.parts())
    }
}
