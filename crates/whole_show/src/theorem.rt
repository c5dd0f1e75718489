// What the theorem says, read off the arrivals alone: "a packet is accepted exactly when its index is above every index that
// arrived before it".
use crate::channel::Arrival;
use crate::groups::Groups;
use error::Error;

// What became of a packet that is not refused.
#[derive(Clone, Copy, PartialEq)]
pub enum Taken {
    Accepted,
    Late,
}

// What arrived so far.
#[derive(Clone, Copy, Default)]
pub struct Arrived {
    // one more than the largest index, 0 before the first
    above: usize,
    // the first of the packets that were accepted with none missed up to that index
    unbroken: usize,
}

impl Arrived {
    // The call's answer.
    pub fn answer_to(&self, arrival: Arrival) -> Result<Taken, Error> {
        match arrival {
            Arrival::Own(index) if self.above <= index => Ok(Taken::Accepted),
            Arrival::Own(_) => Ok(Taken::Late),
            Arrival::Foreign => Err(Error::OtherSource),
            Arrival::Cut => Err(Error::ErrHeaderSizeInsufficient),
            Arrival::Extended => Err(Error::ErrHeaderSizeInsufficientForExtension),
            Arrival::Padded => Err(Error::ErrShortPacket),
        }
    }

    // What an arrival has the joiner hand out: a group of which each packet was accepted, when its last is.
    pub fn handed_out<'a>(&mut self, arrival: Arrival, groups: &'a Groups<'a>) -> &'a [u8] {
        match arrival {
            Arrival::Own(index) if self.above <= index => self.accepted(index, groups),
            _ => b"",
        }
    }

    fn accepted<'a>(&mut self, index: usize, groups: &'a Groups<'a>) -> &'a [u8] {
        if self.above < index {
            self.unbroken = index;
        }
        self.above = index.wrapping_add(1);
        groups.handed_out(self.unbroken, index).unwrap_or(b"")
    }
}
