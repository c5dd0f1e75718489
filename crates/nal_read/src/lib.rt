// What an H.264 payload is, for the reader and the joiner: its kind, and the units of a STAP-A.
#![tactic(auto)]

mod aggregate;
mod payload;

pub use aggregate::{hand_stap_a, measure};
pub use payload::{FUA_NALU_TYPE, kind_of};

#[derive(Clone, Copy)]
pub enum Kind {
    // under 2 bytes, or under 3 unless type 9
    Short,
    // type 0, 25 to 27, 29 to 31
    Unknown(u8),
    // a unit by itself, type 1 to 23
    Plain,
    // a STAP-A
    Aggregate,
    // an FU-A: its start and end bits, and the first byte of the unit it belongs to
    Fragment { first: bool, last: bool, head: u8 },
}
