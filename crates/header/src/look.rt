// Looking at extension elements, of a record and of the parts of one.
ghost use Rattle.std.specs.Prelude.{◌≡◌, []};
ghost use Rattle.wire.specs.Part.{pad_to};
ghost use Rattle.header.specs.Fields.{Tested};
ghost use Rattle.header.specs.Parts.{record_of};
ghost use Rattle.header.specs.Extension.{get_extension, get_extension_ids};
ghost use Rattle.header.specs.Said.{said_got, heard_ids, ids_heard};

use crate::{Data, Header, Ids, Parts};
use elements::find;
use error::Error;
use header_write::in_limits;

// Whether the record of these parts is in the domain.
pub(crate) fn in_domain(parts: Parts<'_>) -> bool
    ensures { Tested (record_of parts.entry) result }
{
    // a slice tells its length
    let csrc = parts.csrc;
    let csrc: &[u32] = csrc;
    let ids = parts.ids;
    let ids: &[u8] = ids;
    let lens = parts.lens;
    let sizes: &[u16] = lens;
    let bytes = parts.bytes;
    let bytes: &[u8] = bytes;
    in_limits(parts.csrc_count, parts.count, lens, parts.padding)
}

pub fn get_extension_parts(parts: Parts<'_>, id: u8) -> Result<Option<Data>, Error>
    ensures { said_got result ≡ get_extension (record_of parts.entry) id }
{
    if !in_domain(parts) {
        return Err(Error::OutsideDomain);
    }
    if !parts.fixed.extension {
        return Ok(None);
    }
    let Some(run) = find(id, parts.count, parts.ids, parts.lens) else {
        return Ok(None);
    };
    Ok(Some(Data {
        at: run.at,
        len: run.len,
    }))
}

fn no_ids(count: Result<usize, Error>) -> Ids
    ensures { result ≡ record { count = count; ids = pad_to 32 [] } }
{
    Ids {
        count,
        ids: [0; 32],
    }
}

pub fn get_extension_ids_parts(parts: Parts<'_>) -> Ids
    ensures { heard_ids result ≡ ids_heard (get_extension_ids (record_of parts.entry)) }
{
    if !in_domain(parts) {
        return no_ids(Err(Error::OutsideDomain));
    }
    if !parts.fixed.extension {
        return no_ids(Ok(0));
    }
    let mut listed = [0; 32];
    let names = parts.ids;
    wire::copy_at(&names[0..parts.count], &mut listed, 0);
    Ids {
        count: Ok(parts.count),
        ids: listed,
    }
}

impl Header {
    pub fn get_extension(self, id: u8) -> Result<Option<Data>, Error>
        ensures { said_got result ≡ get_extension self id }
    {
        get_extension_parts(self.parts(), id)
    }

    pub fn get_extension_ids(self) -> Ids
        ensures { heard_ids result ≡ ids_heard (get_extension_ids self) }
    {
        get_extension_ids_parts(self.parts())
    }
}
