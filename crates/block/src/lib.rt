// What a block of extension elements is by RFC 3550, 5.3.1, and RFC 8285: its profiles, how long it is, and its padding.
//
// Only proved code calls this crate, so its functions may ask that a record is in the domain.
#![tactic(auto)]

mod first;
mod padding;
mod profile;

pub use first::{first_head, first_profile};
pub use padding::{grow, resize};

// Stays: numbers of the wire, under the names that the Rust gives them.
pub const EXTENSION_PROFILE_ONE_BYTE: u16 = 0xBEDE;

pub const EXTENSION_PROFILE_TWO_BYTE: u16 = 0x1000;

pub const EXTENSION_ID_RESERVED: u8 = 0xF;

// How a profile lays its elements out.
#[derive(Clone, Copy, Debug, PartialEq, Eq)]
pub enum Form {
    // RFC 8285, 4.2: id and length in one byte
    OneByte,
    // RFC 8285, 4.3: a byte for each of them
    TwoByte,
    // any other profile: one element of whole words, without a head
    Other,
}
