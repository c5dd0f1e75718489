// The RTP packet with its padding: packet/mod.rs of rtp 0.17.2.
#![tactic(auto)]

use error::Error;
use header::{Front, Header};

mod read;
mod write;

pub use read::{unmarshal, unmarshal_front, unmarshal_parts};
pub use write::{marshal_bare, marshal_parts, marshal_size, marshal_size_parts, marshal_to};

// `len` bytes of the packet from `at` on.
#[derive(Clone, Copy)]
pub struct Payload {
    pub at: usize,
    pub len: usize,
}

// Stays: as in `header`, the record stands beside the answer here, and there its front.
#[derive(Clone, Copy)]
pub struct Unmarshalled {
    pub read: Result<Payload, Error>,
    // all zeros beside a refusal
    pub header: Header,
}

// With the record's front: all of it but its arrays.
#[derive(Clone, Copy)]
pub struct FrontRead {
    pub read: Result<Payload, Error>,
    // all zeros beside a refusal
    pub front: Front,
}
