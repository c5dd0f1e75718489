// What the H.264 sender goes by: what is to be done with a unit, packets put into one output, and what became of the unit.
//
// Only proved code calls this crate, so its functions may ask that the buffers have room.
#![tactic(auto)]

mod fate;
mod outcome;
mod put;

pub use fate::{AUD_NALU_TYPE, FILLER_NALU_TYPE, Fate, PPS_NALU_TYPE, SPS_NALU_TYPE, fate_of};
pub use outcome::{Drops, Outcome, PairOutcome, UnitOutcome};
pub use put::{Place, PutUnit, put_pair, put_unit};
