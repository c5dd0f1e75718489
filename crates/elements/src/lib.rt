// The elements of a header's extension in their record: how they are laid out, found, put in and taken out.
//
// Only proved code calls this crate, so its functions may ask that the record has room.
// Stays: the record that C sees holds any number of elements, so each function asks for 32 at most, and for the bytes that it needs.
#![tactic(auto)]

mod change;
mod list;

pub use change::{end, find, replaced, without};
pub use list::{push, total};

// The extension elements, in order.
// Stays: C reads and fills this record, its count and its arrays.
#[repr(C)]
#[derive(Clone, Copy)]
pub struct Extensions {
    // how many there are: 0 to 32
    pub count: usize,
    // the id of each
    pub ids: [u8; 32],
    // how many data bytes each has: 1,024 in all at most
    pub lens: [u16; 32],
    // the data of all of them, packed in order
    pub bytes: [u8; 1024],
}

// Elements that follow each other: `count` of them from the index `first` on, and their data, `len` bytes from `at` on.
#[derive(Clone, Copy)]
pub struct Run {
    // the first one's index
    pub first: usize,
    // how many there are
    pub count: usize,
    // where their data begin
    pub at: usize,
    // how many bytes these are
    pub len: usize,
}
