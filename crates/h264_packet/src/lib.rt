// Reading H.264 payloads: the H264Packet of codecs/h264/mod.rs of rtp 0.17.2.
#![tactic(auto)]

use error::Error;

mod partition;
mod read;
mod view;

pub use partition::{is_partition_head, is_partition_tail};
pub use view::body;

// The state of a reader.
// Stays: C sees the record, so that a flag stands for the prefix and length 0 for no run.
#[repr(C)]
#[derive(Clone, Copy)]
pub struct H264Packet {
    // units are handed out behind a 4-byte length, and not behind a start code
    pub is_avc: bool,
    // how many bytes of fragments stand in front of the gather buffer; 0 for none: 0 to 16,777,215
    pub gathered: usize,
}

// Where the body of the unit that a packet completed can be seen.
#[derive(Clone, Copy)]
pub enum Shown {
    Nowhere,
    Packet,
    // the first bytes of the gather buffer
    Gather(usize),
}

#[derive(Clone, Copy)]
pub struct Depacketized {
    // as it came beside a refusal
    pub packet: H264Packet,
    // how many bytes were handed out
    pub answer: Result<usize, Error>,
    pub shown: Shown,
}

// What became of a payload that was read.
#[derive(Clone, Copy)]
struct Ran {
    // how many bytes the run has that is now open; 0 for none
    gathered: usize,
    // how many bytes were handed out
    bytes: usize,
    // the body of the unit that was completed
    shown: Shown,
}
