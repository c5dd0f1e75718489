// The joiner's calls.
ghost use Rattle.std.specs.Prelude.{◌≡◌, false, ◌+◌, ◌≤◌, length};
ghost use Rattle.error.specs.Said.{said};
ghost use Rattle.joiner_step.specs.Step.{by_source, stray};
ghost use Rattle.joiner.specs.Join.{kept_of, as_step, known, choice_of, opened, join_step, close_step};
ghost use Rattle.joiner.specs.Said.{step_heard, moved_heard, held_at, with_run, missed_said, live_said, shut_heard, closing_heard};

use crate::{Closed, Closing, Joined, Joiner, Moved, Step};
use error::Error;
use joiner_feed::{Run, feed};
use joiner_read::{Arrival, arrive};
use nal::Prefix;

impl Joiner {
    pub fn open(ssrc: u32, first: u16) -> Self
        ensures { result ≡ opened ssrc first }
    {
        Joiner {
            source: ssrc,
            awaited: first,
            missed: 0,
            running: false,
            gathered: 0,
            time: 0,
            marked: false,
            closed: false,
        }
    }

    // Something of a run is said where none is open: no call makes such a record.
    fn strays(self) -> bool
        ensures { result ≡ stray (choice_of self) (kept_of self).run }
    {
        !self.running && (self.gathered != 0 || self.marked || self.time != 0)
    }

    // 22 for a joiner that is closed, then 8 for a record that contradicts itself.
    fn live(self) -> Result<(), Error>
        ensures { said result ≡ live_said self }
    {
        if self.closed {
            return Err(Error::AlreadyClosed);
        }
        if 16777215 < self.gathered || self.strays() {
            return Err(Error::OutsideDomain);
        }
        Ok(())
    }

    // The missed total after `d` numbers more: 24 where it would pass 4,294,967,295.
    fn missed_after(self, d: u16) -> Result<u32, Error>
        ensures { said result ≡ missed_said self d }
    {
        self.missed
            .checked_add(u32::from(d))
            .ok_or(Error::MissedTotalFull)
    }

    // "d > 0 drops the open run"
    fn run_at(self, d: u16) -> Option<Run>
        ensures { result ≡ held_at self d }
    {
        if d == 0 && self.running {
            Some(Run {
                gathered: self.gathered,
                marked: self.marked,
                time: self.time,
            })
        } else {
            None
        }
    }

    fn with_run(self, run: Option<Run>) -> Self
        ensures { result ≡ with_run self run }
    {
        match run {
            Some(run) => Joiner {
                running: true,
                gathered: run.gathered,
                time: run.time,
                marked: run.marked,
                ..self
            },
            None => Joiner {
                running: false,
                gathered: 0,
                time: 0,
                marked: false,
                ..self
            },
        }
    }

    // A packet that was read.
    // Stays: packet, gather buffer and output by themselves, as the caller lends them: a struct of the three would be made in the one call that takes it.
    fn arrived(
        self,
        arrival: Arrival,
        payload: &[u8],
        gather: &mut [u8],
        out: &mut [u8],
    ) -> Result<Moved, Error>
        requires { (length payload.now ≤ 65535) × (self.gathered ≤ length gather.old) × (self.closed ≡ false) }
        ensures { moved_heard self result gather.new out.new ≡ as_step (by_source (choice_of self) (kept_of self) (record { source = arrival.source; number = arrival.number; known = known arrival.time payload.now }) gather.old out.old) }
    {
        if arrival.source != self.source {
            return Err(Error::OtherSource);
        }
        let d = sequence::distance(arrival.number, self.awaited);
        if 32768 <= d {
            return Ok(Moved {
                joiner: self, // "Late, unchanged"
                joined: Joined::Late,
            });
        }
        let missed = self.missed_after(d)?;
        // "handed out as Annex B"
        let prefix = Prefix::StartCode;
        let ran = feed(self.run_at(d), prefix, arrival.time, payload, gather, out)?;
        Ok(Moved {
            joiner: Joiner {
                awaited: sequence::after(arrival.number),
                missed,
                ..self.with_run(ran.run)
            },
            joined: Joined::Accepted {
                first: self.awaited,
                count: d,
                bytes: ran.bytes,
            },
        })
    }

    fn moved(self, packet: &[u8], gather: &mut [u8], out: &mut [u8]) -> Result<Moved, Error>
        ensures { moved_heard self result gather.new out.new ≡ join_step self packet.now gather.old out.old }
    {
        self.live()?;
        if gather.len() < self.gathered {
            return Err(Error::OutsideDomain);
        }
        let arrival = arrive(packet)?;
        let payload = &packet[arrival.at..arrival.at + arrival.len];
        self.arrived(arrival, payload, gather, out)
    }

    pub fn join(self, packet: &[u8], gather: &mut [u8], out: &mut [u8]) -> Step
        ensures { step_heard result gather.new out.new ≡ join_step self packet.now gather.old out.old }
    {
        match self.moved(packet, gather, out) {
            Ok(moved) => Step {
                joiner: moved.joiner,
                answer: Ok(moved.joined),
            },
            // "A refusal .. changes no buffer and no state"
            Err(e) => Step {
                joiner: self,
                answer: Err(e),
            },
        }
    }

    // The joiner closed by the number after the last sent.
    fn shut(self, number: u16) -> Result<Joiner, Error>
        ensures { shut_heard self number result ≡ close_step self number }
    {
        self.live()?;
        let d = sequence::distance(number, self.awaited);
        if 32768 <= d {
            return Err(Error::ClosingTooFar);
        }
        let missed = self.missed_after(d)?;
        Ok(Joiner {
            missed,
            closed: true,
            ..self.with_run(None)
        })
    }

    pub fn close(self, number: u16) -> Closing
        ensures { closing_heard result ≡ close_step self number }
    {
        match self.shut(number) {
            Ok(joiner) => Closing {
                joiner,
                answer: Ok(Closed {
                    first: self.awaited,
                    count: sequence::distance(number, self.awaited),
                }),
            },
            Err(e) => Closing {
                joiner: self,
                answer: Err(e),
            },
        }
    }
}
