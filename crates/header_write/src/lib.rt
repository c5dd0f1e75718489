// A header by its numbers and by its parts, apart from its record: the limits of the domain, the size, and what is judged and written.
//
// Only proved code calls this crate, so its functions may ask that a record is in the domain, and that the buffer has room.
#![tactic(auto)]

mod by_parts;
mod figure;
mod judging;
mod limits;
mod size;

pub use by_parts::{measure, put_bare, put_header};
pub use judging::judge;
pub use limits::in_limits;
pub use size::size_of;

// RFC 3550's fixed header fields but CC: the first 16 bytes of a header's record, in its order.
#[repr(C)]
#[derive(Clone, Copy)]
pub struct Fixed {
    // 0 to 3; 2 for RTP
    pub version: u8,
    // the packet ends in padding
    pub padding: bool,
    // the header has an extension block
    pub extension: bool,
    // M: its meaning is the payload type's
    pub marker: bool,
    // 0 to 127
    pub payload_type: u8,
    // one more for each packet, modulo 65,536
    pub sequence_number: u16,
    // when the payload was sampled
    pub timestamp: u32,
    // the source
    pub ssrc: u32,
}

// A header's record in parts: what is small by value, its arrays lent, so that no record is copied.
#[derive(Clone, Copy)]
pub struct Parts<'a> {
    pub fixed: Fixed,
    // how many contributing sources there are: 0 to 15
    pub csrc_count: usize,
    pub csrc: &'a [u32; 15],
    // 0xBEDE: one-byte elements; 0x1000: two-byte elements; any other: one element of whole words
    pub profile: u16,
    // how many extension elements there are: 0 to 32
    pub count: usize,
    // the id of each
    pub ids: &'a [u8; 32],
    // how many data bytes each has: 1,024 in all at most
    pub lens: &'a [u16; 32],
    // the data of all of them, packed in order
    pub bytes: &'a [u8; 1024],
    // zeros of the block: 0 to 262,140
    pub padding: usize,
}
