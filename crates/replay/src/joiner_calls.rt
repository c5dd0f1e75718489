// Runs of calls: the joiner and the gather buffer that a host keeps from call to call.
use crate::{equal, rows};
use error::Error;
use joiner::{Closed, Joined, Joiner, join_by_value};

// Stays: how much of each buffer is lent is what the lists vary, and so no part of the buffer.
#[derive(Clone, Copy)]
pub struct Host {
    joiner: Joiner,
    gather: [u8; 2048],
    // how many places of the gather buffer are lent
    held: usize,
    // how many places of the output are lent, which is new for each call
    places: usize,
    // whether the packets of this run go through the in-place entry, as those of every other run do
    in_place: bool,
}

impl Host {
    pub fn new(joiner: Joiner, held: usize, places: usize, in_place: bool) -> Host {
        Host {
            joiner,
            gather: [rows::FILL; 2048],
            held,
            places,
            in_place,
        }
    }

    // A new run, which starts with so many packets missed.
    pub fn open<'a>(&mut self, q: &'a [u8], a: &'a [u8]) -> bool {
        let mut joiner = Joiner::open(rows::word(q, 1), rows::short(q, 2));
        joiner.missed = rows::word(q, 3);
        *self = Host::new(
            joiner,
            rows::number(q, 4),
            rows::number(q, 5),
            !self.in_place,
        );
        equal::told(a, 0, 0, 0, 0) && self.stands(a)
    }

    // From now on so many places are lent.
    pub fn room<'a>(&mut self, q: &'a [u8], a: &'a [u8]) -> bool {
        self.held = rows::number(q, 1);
        self.places = rows::number(q, 2);
        equal::told(a, 0, 0, 0, 0) && self.stands(a)
    }

    pub fn join<'a>(&mut self, q: &'a [u8], a: &'a [u8]) -> bool {
        let mut out = [rows::FILL; 2048];
        let packet = rows::field(q, 1);
        let joiner = self.joiner;
        let held = &mut self.gather[0..rows::room(self.held)];
        let lent = &mut out[0..rows::room(self.places)];
        // Stays: which entry is asked is what the lists vary, and both calls answer alike.
        let step = if self.in_place {
            join_by_value(joiner, packet, held, lent)
        } else {
            joiner.join(packet, held, lent)
        };
        self.joiner = step.joiner;
        joined(a, step.answer)
            && equal::places(rows::field(a, 12), rows::FILL, &out)
            && self.stands(a)
    }

    pub fn close<'a>(&mut self, q: &'a [u8], a: &'a [u8]) -> bool {
        let closing = self.joiner.close(rows::short(q, 1));
        self.joiner = closing.joiner;
        closed(a, closing.answer) && self.stands(a)
    }

    // The record, and all of the gather buffer.
    fn stands(&self, a: &[u8]) -> bool {
        let j = self.joiner;
        equal::places(rows::field(a, 4), rows::FILL, &self.gather)
            // Stays: `as`, here and below, since no `From` makes a usize of a u32.
            && equal::number(a, 5, j.source as usize)
            && equal::number(a, 6, j.awaited)
            && equal::number(a, 7, j.missed as usize)
            && equal::number(a, 8, j.gathered)
            // no H.264 fragment is empty
            && j.running == (0 < j.gathered)
            && equal::number(a, 9, j.marked)
            && equal::number(a, 10, j.time as usize)
            && equal::number(a, 11, j.closed)
    }
}

fn joined(a: &[u8], answer: Result<Joined, Error>) -> bool {
    match answer {
        Ok(
            Joined::Accepted {
                first,
                count,
                bytes,
            },
        ) => equal::told(a, 0, usize::from(first), usize::from(count), bytes),
        Ok(Joined::Late) => equal::told(a, equal::NOTHING, 0, 0, 0),
        Err(e) => equal::refused(a, e),
    }
}

fn closed(a: &[u8], answer: Result<Closed, Error>) -> bool {
    match answer {
        Ok(Closed { first, count }) => equal::told(a, 0, usize::from(first), usize::from(count), 0),
        Err(e) => equal::refused(a, e),
    }
}
