// Puts H.264 units together from the packets of one source, by sequence number.
#![tactic(auto)]

use error::Error;

mod join;
mod place;

pub use place::{join_by_value, join_in_place};

// The state of a joiner, which a host keeps for the whole show.
// Stays: C sees the record, so that a flag and three values stand for a run or none.
#[repr(C)]
#[derive(Clone, Copy)]
pub struct Joiner {
    // the sender's SSRC
    pub source: u32,
    // the sequence number of the next packet
    pub awaited: u16,
    // how many packets were passed over
    pub missed: u32,
    // a run is open: fragments of a unit were gathered, and its last is still to come
    pub running: bool,
    // how many bytes of the open run stand in front of the gather buffer; 0 where no run is open: 0 to 16,777,215
    pub gathered: usize,
    // the timestamp that the fragments of the open run share; 0 where no run is open
    pub time: u32,
    // a fragment of the open run had its forbidden bit set; false where no run is open
    pub marked: bool,
    // closed: every call answers 22
    pub closed: bool,
}

// Stays: Late is an answer of its own by the paper, and no absence: so this is no Option.
#[derive(Clone, Copy)]
pub enum Joined {
    // The packet was accepted. Before it `count` numbers were passed over, `first` the first of them; `bytes` bytes were handed
    // out.
    Accepted {
        first: u16,
        count: u16,
        bytes: usize,
    },
    // Its number is 32,768 or more ahead: nothing was done with it.
    Late,
}

#[derive(Clone, Copy)]
pub struct Step {
    pub joiner: Joiner,
    pub answer: Result<Joined, Error>,
}

// Closed, after `count` numbers from `first` on never came.
#[derive(Clone, Copy)]
pub struct Closed {
    pub first: u16,
    pub count: u16,
}

// Stays: no `Step<A>` for this and `Step`, since `typed_step` (proofs/Records.antt) says how the one record `Step` lies in memory.
#[derive(Clone, Copy)]
pub struct Closing {
    pub joiner: Joiner,
    pub answer: Result<Closed, Error>,
}

// Where a packet leads that is not refused.
#[derive(Clone, Copy)]
struct Moved {
    joiner: Joiner,
    joined: Joined,
}
