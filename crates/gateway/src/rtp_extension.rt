// The header's extension elements: set, deleted, got, listed.
ghost use Rattle.std.specs.Prelude.{◌≡◌};
ghost use Rattle.header.specs.Extension.{set_extension, del_extension, get_extension, get_extension_ids};
ghost use Rattle.header.specs.Said.{heard_change, change_heard, said_got, heard_ids, ids_heard};
ghost use Rattle.gateway.specs.HeaderAnswers.{header_changed_as, element_as, ids_as};

use crate::refused::{Refused, answered};
use error::Error;
use header::{Changed, Data, Header, Ids};

// A header after an element was set or deleted.
#[repr(C)]
#[derive(Clone, Copy)]
pub struct RtpHeaderChanged {
    pub refused: Refused,
    // as it came beside a refusal
    pub header: Header,
}

// An element's data: `len` bytes from `at` on, of the header's `extensions.bytes`.
#[repr(C)]
#[derive(Clone, Copy)]
pub struct RtpElement {
    pub refused: Refused,
    // false where the header has none of that id, and beside a refusal
    pub present: bool,
    // 0 where it is not present
    pub at: usize,
    // likewise
    pub len: usize,
}

// Stays: C sees the record: an array beside its count.
#[repr(C)]
#[derive(Clone, Copy)]
pub struct RtpIds {
    pub refused: Refused,
    // how many there are, 0 to 32; 0 beside a refusal
    pub count: usize,
    // the ids in order, then zeros
    pub ids: [u8; 32],
}

impl From<Changed> for RtpHeaderChanged {
    ghost from_gives = { λ answer r. r ≡ header_changed_as (heard_change answer) };

    fn from(answer: Changed) -> RtpHeaderChanged {
        let change = answer.change;
        let header = answer.header;
        match change {
            Ok(()) => RtpHeaderChanged {
                refused: answered(),
                header,
            },
            Err(e) => RtpHeaderChanged {
                refused: Refused::from(e),
                header,
            },
        }
    }
}

impl From<Result<Option<Data>, Error>> for RtpElement {
    ghost from_gives = { λ answer r. r ≡ element_as (said_got answer) };

    fn from(answer: Result<Option<Data>, Error>) -> RtpElement {
        match answer {
            Ok(Some(Data { at, len })) => RtpElement {
                refused: answered(),
                present: true,
                at,
                len,
            },
            Ok(None) => RtpElement {
                refused: answered(),
                present: false,
                at: 0,
                len: 0,
            },
            Err(e) => RtpElement {
                refused: Refused::from(e),
                present: false,
                at: 0,
                len: 0,
            },
        }
    }
}

impl From<Ids> for RtpIds {
    ghost from_gives = { λ answer r. r ≡ ids_as (heard_ids answer) };

    fn from(answer: Ids) -> RtpIds {
        let n = answer.count;
        let ids = answer.ids;
        match n {
            Ok(count) => RtpIds {
                refused: answered(),
                count,
                ids,
            },
            Err(e) => RtpIds {
                refused: Refused::from(e),
                count: 0,
                ids,
            },
        }
    }
}

#[unsafe(no_mangle)]
pub extern "C" fn rtp_header_set_extension(
    header: Header,
    id: u8,
    payload: &[u8],
) -> RtpHeaderChanged
    ensures { result ≡ header_changed_as (change_heard header (set_extension header id payload.now)) }
{
    RtpHeaderChanged::from(header.set_extension(id, payload))
}

#[unsafe(no_mangle)]
pub extern "C" fn rtp_header_del_extension(header: Header, id: u8) -> RtpHeaderChanged
    ensures { result ≡ header_changed_as (change_heard header (del_extension header id)) }
{
    RtpHeaderChanged::from(header.del_extension(id))
}

#[unsafe(no_mangle)]
pub extern "C" fn rtp_header_get_extension(header: Header, id: u8) -> RtpElement
    ensures { result ≡ element_as (get_extension header id) }
{
    RtpElement::from(header.get_extension(id))
}

#[unsafe(no_mangle)]
pub extern "C" fn rtp_header_get_extension_ids(header: Header) -> RtpIds
    ensures { result ≡ ids_as (ids_heard (get_extension_ids header)) }
{
    RtpIds::from(header.get_extension_ids())
}
