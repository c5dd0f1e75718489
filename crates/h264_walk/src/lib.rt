// The units of an H.264 frame sent, one behind the other.
//
// A parameter set that waits is known by where it lies, and is copied once, when all units have been sent. Only proved code calls this
// crate, so its functions may ask that the buffers have room and that a set lies where it is said to.
#![tactic(auto)]

mod places;
mod step;
mod units;

pub use places::{Lies, Waiting};
pub use units::{Walked, walk};
