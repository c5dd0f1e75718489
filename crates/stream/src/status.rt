// What a program has to tell when it ends, where that is not that all went well. `./rtp` says it in words, by the exit status, and turns that
// into a status of its own.
ghost use Rattle.std.specs.Prelude.{◌≡◌};
ghost use Rattle.std.specs.Process.{exit_status};
ghost use Rattle.stream.specs.Status.{exit_number};
ghost use Rattle.stream.specs.declared.status.Status.TheVariants.{Failed};

use std::io;
use std::io::{Error, ErrorKind, Write};
use std::process::ExitCode;

// The number of each is the exit status; 0 says that there is nothing to tell.
#[derive(Clone, Copy, Debug, PartialEq, Eq)]
pub enum Status {
    // A call of the system failed; what and why is said.
    Failed = 1,
    // An argument is not as it must be.
    Usage = 2,
    // Nothing came of the input.
    Nothing = 3,
    // A file of packets ends within one.
    Cut = 4,
    // A clip has no start code.
    NoCode = 5,
    // A unit, or an access unit, is longer than a program has room for.
    Long = 6,
    // A parameter set is longer than 1,024 bytes.
    LongSet = 7,
    // The closing number cannot be the one after the last.
    WrongEnd = 8,
    // All went well, but no pair of parameter sets comes before a unit that is sent.
    NoSets = 9,
    // All went well, but units or pairs of parameter sets were dropped for the mtu.
    Dropped = 10,
}

pub fn tell(status: u8) -> ExitCode
    ensures { exit_status result ≡ status }
{
    ExitCode::from(status)
}

// How a program ends.
pub fn exit(outcome: Result<(), Status>) -> ExitCode
    ensures { exit_status result ≡ exit_number outcome }
{
    match outcome {
        Ok(()) => tell(0),
        Err(status) => tell(status as u8),
    }
}

// An error in the system's words alone, without its number.
fn words(text: &str) -> &[u8] {
    match text.rfind(" (os error ") {
        Some(at) => &text.as_bytes()[..at],
        None => text.as_bytes(),
    }
}

fn write_failure(rt: &HostRuntime, what: &[u8], e: Error) -> io::Result<()> {
    let mut to = rt.stderr();
    to.write_all(what)?;
    to.write_all(b": ")?;
    let Ok(text) = e.to_string(rt.alloc()) else {
        return rt.eprintln(e);
    };
    to.write_all(words(text.as_str()))?;
    to.write_all(b"\n")
}

// Says on standard error what failed, and why. What cannot be written there stays unsaid.
pub fn failed(rt: &HostRuntime, what: &[u8], e: Error) -> Status
    ensures { result ≡ Failed }
{
    let _ = write_failure(rt, what, e);
    Status::Failed
}

pub fn unread(rt: &HostRuntime, e: Error) -> Status
    ensures { result ≡ Failed }
{
    failed(rt, b"rtp: reading", e)
}

// Nothing is said to a reader that leaves.
pub fn unwritten(rt: &HostRuntime, e: Error) -> Status
    ensures { result ≡ Failed }
{
    if e.kind() == ErrorKind::BrokenPipe {
        return Status::Failed;
    }
    failed(rt, b"rtp: writing", e)
}
