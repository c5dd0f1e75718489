// What the H.264 reader and the joiner share of what they do with a payload, whatever its codec: gathering fragments, the sizes of an
// aggregation packet, and handing units out. What a unit's header is, what is refused and what is kept of a run is each caller's own.
//
// Only proved code calls this crate, so its functions may ask that the buffers have room.
// Stays: each function asks for the bounds that it needs of a part and of the gather buffer. A struct that keeps them would wrap two slices
// for one call each, and be taken apart at once.
#![tactic(auto)]

mod aggregate;
mod buffers;

pub use aggregate::{hand_units, measure};
pub use buffers::{finish, gather_on, hand_plain};

// What stands in front of each unit that is handed out.
#[derive(Clone, Copy)]
pub enum Prefix {
    // the unit's length in four bytes: `is_avc`
    Length,
    // 00 00 00 01: Annex B
    StartCode,
}

// The units of an aggregation packet: how many, and of how many bytes in all.
#[derive(Clone, Copy)]
pub struct Measured {
    pub count: usize,
    pub bytes: usize,
}

// What is wrong with the sizes of an aggregation packet, at the first place. Which refusal that is, each codec says for itself.
// Stays: an error with two cases, of which one carries numbers, and no Option.
#[derive(Clone, Copy)]
pub enum WrongSize {
    // a size past the packet, and the bytes left
    Past { size: usize, left: usize },
    // one byte left where a two-byte size is needed
    Lone,
}
