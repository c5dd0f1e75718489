// A show: the packets of a file, joined.
use crate::account::{Account, Jump};
use crate::units::units_of;
use error::Error;
use joiner::{Joined, Joiner, Step};
use std::fmt::Write;
use std::fs::File;
use std::io;
use stream::status::Status;
use stream::{Output, Text, status};

#[derive(Drop)]
pub struct Show {
    // opened by the arguments, or by the first packet that is read
    pub joiner: Option<Joiner>,
    // of the packets so far
    pub account: Account,
    // the packets and the clip
    pub from: File,
    pub to: Output,
}

// A refusal that says that a unit has no room ends the show.
fn outcome_of(e: Error) -> Result<(), Status> {
    match e {
        Error::ErrBufferTooSmall => Err(Status::Long),
        Error::GatherTooSmall => Err(Status::Long),
        _ => Ok(()),
    }
}

// Writes the numbers of a jump, if any, and the bytes that were handed out.
fn write(rt: &HostRuntime, to: &mut Output, jump: Jump, bytes: &[u8]) -> io::Result<()> {
    let mut text = Text::new();
    let _ = write!(text, "{jump}");
    stream::account_to(to).write_all(rt, text.as_bytes())?;
    to.write_all(rt, bytes)
}

impl Show {
    // The joiner: one that a packet opens, where none is open yet.
    fn opened(&self, packet: &[u8]) -> Result<Joiner, Error> {
        if let Some(joiner) = self.joiner {
            return Ok(joiner);
        }
        let answer = packet::unmarshal(packet);
        answer.read?;
        Ok(Joiner::open(answer.header.ssrc, answer.header.sequence_number))
    }

    fn refused(mut self, e: Error) -> Result<Show, Status> {
        self.account = self.account.refuse(e);
        outcome_of(e)?;
        Ok(self)
    }

    // What became of a packet: `out` is as the joiner left it.
    fn note<'a>(
        mut self,
        rt: &HostRuntime,
        packet: &'a [u8],
        step: Step,
        out: &'a [u8],
    ) -> Result<Show, Status> {
        self.joiner = Some(step.joiner);
        let answer = step.answer;
        match answer {
            Ok(
                Joined::Accepted {
                    first,
                    count,
                    bytes,
                },
            ) => {
                let handed = stream::front(out, bytes);
                self.account = self.account.accept(units_of(packet, handed), bytes);
                write(rt, &mut self.to, Jump { first, count }, handed).map_err(
                    |e| status::unwritten(rt, e),
                )?;
                Ok(self)
            }
            Ok(Joined::Late) => {
                self.account = self.account.come_late();
                Ok(self)
            }
            Err(e) => self.refused(e),
        }
    }

    // One packet more. One that cannot be read is refused alike by the reader and by a joiner.
    pub fn join(
        self,
        rt: &HostRuntime,
        packet: &[u8],
        gather: &mut [u8; 3145728],
        out: &mut [u8; 3211264],
    ) -> Result<Show, Status> {
        match self.opened(packet) {
            Ok(joiner) => {
                let step = joiner.join(packet, gather, out);
                self.note(rt, packet, step, out)
            }
            Err(e) => self.refused(e),
        }
    }
}
