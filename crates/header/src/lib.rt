// The RTP header with its extensions: header.rs of rtp 0.17.2.
//
//  0                   1                   2                   3
//  0 1 2 3 4 5 6 7 8 9 0 1 2 3 4 5 6 7 8 9 0 1 2 3 4 5 6 7 8 9 0 1
// +-+-+-+-+-+-+-+-+-+-+-+-+-+-+-+-+-+-+-+-+-+-+-+-+-+-+-+-+-+-+-+-+
// |V=2|P|X|  CC   |M|     PT      |       sequence number         |
// +-+-+-+-+-+-+-+-+-+-+-+-+-+-+-+-+-+-+-+-+-+-+-+-+-+-+-+-+-+-+-+-+
// |                           timestamp                           |
// +-+-+-+-+-+-+-+-+-+-+-+-+-+-+-+-+-+-+-+-+-+-+-+-+-+-+-+-+-+-+-+-+
// |           synchronization source (SSRC) identifier            |
// +=+=+=+=+=+=+=+=+=+=+=+=+=+=+=+=+=+=+=+=+=+=+=+=+=+=+=+=+=+=+=+=+
// |            contributing source (CSRC) identifiers             |
// |                             ....                              |
// +-+-+-+-+-+-+-+-+-+-+-+-+-+-+-+-+-+-+-+-+-+-+-+-+-+-+-+-+-+-+-+-+
#![tactic(auto)]

use error::Error;

mod extension;
mod look;
mod read;
mod size;
mod write;

pub use block::{EXTENSION_ID_RESERVED, EXTENSION_PROFILE_ONE_BYTE, EXTENSION_PROFILE_TWO_BYTE};
pub use elements::Extensions;
pub use header_write::{Fixed, Parts};
pub use look::{get_extension_ids_parts, get_extension_parts};
pub use read::{unmarshal_front, unmarshal_parts};
pub use size::{get_extension_payload_len_parts, marshal_size_parts};
pub use write::{marshal_bare, marshal_parts};

// Stays: C sees the record: arrays beside counts.
#[repr(C)]
#[derive(Clone, Copy)]
pub struct Header {
    // 0 to 3; 2 for RTP
    pub version: u8,
    // the packet ends in padding
    pub padding: bool,
    // the header has an extension block
    pub extension: bool,
    // M: its meaning is the payload type's
    pub marker: bool,
    // 0 to 127
    pub payload_type: u8,
    // one more for each packet, modulo 65,536
    pub sequence_number: u16,
    // when the payload was sampled
    pub timestamp: u32,
    // the source
    pub ssrc: u32,
    // how many contributing sources there are: 0 to 15
    pub csrc_count: usize,
    // the contributing sources, then zeros
    pub csrc: [u32; 15],
    // 0xBEDE: one-byte elements; 0x1000: two-byte elements; any other: one element of whole words
    pub extension_profile: u16,
    // the elements, in order
    pub extensions: Extensions,
    // zeros of the block: as many as were read, or as the size is to count: 0 to 262,140
    pub extensions_padding: usize,
}

// Stays: the paper has the record stand beside the answer, here the record and there its front; one struct would rename either for every caller.
#[derive(Clone, Copy)]
pub struct Unmarshalled {
    // the payload's place in the packet
    pub read: Result<usize, Error>,
    // all zeros beside a refusal
    pub header: Header,
}

// A header's record without its arrays.
#[repr(C)]
#[derive(Clone, Copy)]
pub struct Front {
    pub fixed: Fixed,
    // how many contributing sources there are: 0 to 15
    pub csrc_count: usize,
    // how many extension elements there are: 0 to 32
    pub count: usize,
    // zeros of the block: 0 to 262,140
    pub extensions_padding: usize,
    // 0xBEDE: one-byte elements; 0x1000: two-byte elements; any other: one element of whole words
    pub extension_profile: u16,
}

#[derive(Clone, Copy)]
pub struct FrontRead {
    // the payload's place in the packet
    pub read: Result<usize, Error>,
    // all zeros beside a refusal
    pub front: Front,
}

#[derive(Clone, Copy)]
pub struct Changed {
    pub change: Result<(), Error>,
    // as it came beside a refusal
    pub header: Header,
}

// An element's data: `len` bytes from `at` on, of the record's `extensions.bytes`.
#[derive(Clone, Copy)]
pub struct Data {
    pub at: usize,
    pub len: usize,
}

#[derive(Clone, Copy)]
pub struct Ids {
    // how many ids there are
    pub count: Result<usize, Error>,
    // the ids in order, then zeros
    pub ids: [u8; 32],
}
