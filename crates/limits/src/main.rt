// What no list of `replay` asks, since a field of a row has 65,535 bytes at most and a joiner's record is one that a call made: a byte over
// the limit of a packet, a bare header beyond its limits, records that contradict themselves, and a fresh sender. A line for each call: the refusal's number, 0 for none; of
// `body`, which refuses nothing, how many bytes it shows; of a fresh sender how many packets it sends.
#![tactic(auto)]

ghost use Rattle.error.specs.Refusal.{number_of};
ghost use Rattle.std.specs.Prelude.{◌≡◌, MatchResult};

mod bare;
mod fresh;
mod joined;
mod long;

use error::Error;
use h264_packet::{Shown, body};
use std::fmt::Display;
use std::io;

// The refusal's number, 0 for none.
pub fn number<A: Drop>(answer: Result<A, Error>) -> u8
    ensures { MatchResult answer (λ _. result ≡ 0) (λ e. result ≡ number_of e) }
{
    match answer {
        Ok(_) => 0,
        Err(e) => e.number(),
    }
}

// A line for each call.
pub fn tell<N: Display>(rt: &HostRuntime, calls: &[(&str, N)]) -> io::Result<()> {
    for (call, number) in calls {
        println!(rt; "{call}: {number}")?;
    }
    Ok(())
}

fn main(rt: HostRuntime) -> io::Result<()> {
    long::all(&rt)?;
    bare::all(&rt)?;
    joined::all(&rt)?;
    fresh::all(&rt)?;
    tell(
        &rt,
        &[
            (
                "bytes of the body of an empty packet",
                body(Shown::Packet, b"", b"\x41").len(),
            ),
            (
                "bytes of a body beyond the gather buffer",
                body(Shown::Gather(2), b"\x41", b"\x41").len(),
            ),
        ],
    )
}
