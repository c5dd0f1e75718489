// The joiner: opened, brought up to date by each packet, closed.
ghost use Rattle.std.specs.Prelude.{◌≡◌};
ghost use Rattle.joiner.specs.Join.{opened, join_step, close_step};
ghost use Rattle.joiner.specs.Said.{said_joined, closing_heard};
ghost use Rattle.gateway.specs.JoinerAnswers.{joined_as, closed_as};

use crate::refused::{Refused, answered};
use error::Error;
use joiner::{Closed, Closing, Joined, Joiner};

// What became of a packet.
#[repr(C)]
#[derive(Clone, Copy)]
pub struct RtpJoined {
    pub refused: Refused,
    // its number is 32,768 or more ahead: nothing was done with it, and the rest is 0
    pub late: bool,
    // the first of the numbers that were passed over before it; 0 beside a refusal
    pub first: u16,
    // how many they are; 0 beside a refusal
    pub count: u16,
    // how many bytes were handed out; 0 beside a refusal
    pub bytes: usize,
}

// A joiner that was closed.
#[repr(C)]
#[derive(Clone, Copy)]
pub struct RtpClosed {
    pub refused: Refused,
    // the first of the numbers that never came; 0 beside a refusal
    pub first: u16,
    // how many they are; 0 beside a refusal
    pub count: u16,
    // as it came beside a refusal
    pub joiner: Joiner,
}

impl From<Result<Joined, Error>> for RtpJoined {
    ghost from_gives = { λ answer r. r ≡ joined_as (said_joined answer) };

    fn from(answer: Result<Joined, Error>) -> RtpJoined {
        match answer {
            Ok(
                Joined::Accepted {
                    first,
                    count,
                    bytes,
                },
            ) => RtpJoined {
                refused: answered(),
                late: false,
                first,
                count,
                bytes,
            },
            Ok(Joined::Late) => RtpJoined {
                refused: answered(),
                late: true,
                first: 0,
                count: 0,
                bytes: 0,
            },
            Err(e) => RtpJoined {
                refused: Refused::from(e),
                late: false,
                first: 0,
                count: 0,
                bytes: 0,
            },
        }
    }
}

impl From<Closing> for RtpClosed {
    ghost from_gives = { λ closing r. r ≡ closed_as (closing_heard closing) };

    fn from(closing: Closing) -> RtpClosed {
        let answer = closing.answer;
        let joiner = closing.joiner;
        match answer {
            Ok(Closed { first, count }) => RtpClosed {
                refused: answered(),
                first,
                count,
                joiner,
            },
            Err(e) => RtpClosed {
                refused: Refused::from(e),
                first: 0,
                count: 0,
                joiner,
            },
        }
    }
}

#[unsafe(no_mangle)]
pub extern "C" fn rtp_joiner_open(ssrc: u32, first: u16) -> Joiner
    ensures { result ≡ opened ssrc first }
{
    Joiner::open(ssrc, first)
}

// Brings the record up to date by a packet.
#[unsafe(no_mangle)]
pub extern "C" fn rtp_joiner_join(
    j: &mut Joiner,
    packet: &[u8],
    gather: &mut [u8],
    out: &mut [u8],
) -> RtpJoined
    ensures { (result ≡ joined_as (join_step j.old packet.now gather.old out.old).answer)
        × (j.new ≡ (join_step j.old packet.now gather.old out.old).joiner)
        × (gather.new ≡ (join_step j.old packet.now gather.old out.old).gather)
        × (out.new ≡ (join_step j.old packet.now gather.old out.old).out) }
{
    RtpJoined::from(joiner::join_in_place(j, packet, gather, out))
}

// Closes it with the number after the last sent.
#[unsafe(no_mangle)]
pub extern "C" fn rtp_joiner_close(joiner: Joiner, number: u16) -> RtpClosed
    ensures { result ≡ closed_as (close_step joiner number) }
{
    RtpClosed::from(joiner.close(number))
}
