// What a payload holds, and what that does to the open run.
//
// Only proved code calls this crate, so its function may ask that the run lies in the gather buffer.
#![tactic(auto)]

ghost use Rattle.std.specs.Prelude.{◌≡◌, ◌++◌, ◌≤◌, length, take, drop, Some};
ghost use Rattle.error.specs.Said.{says};
ghost use Rattle.nal.specs.Said.{is_avc};
ghost use Rattle.joiner_feed.specs.Content.{top_bit, fed_after};
ghost use Rattle.joiner_feed.specs.H264.{fragment_in, fragmented, check};
ghost use Rattle.joiner_feed.specs.Ran.{note_of, held_in, run_of, goes_on, ran_heard, lay_does};

use error::Error;
use nal::Prefix;
use nal_read::Kind;

// What is kept of an open run; its bytes stand in front of the gather buffer.
#[derive(Clone, Copy)]
pub struct Run {
    // how many bytes are gathered: 0 to 16,777,215
    pub gathered: usize,
    // a fragment of it had its forbidden bit set
    pub marked: bool,
    // the timestamp of its fragments
    pub time: u32,
}

// What became of a payload that was fed.
#[derive(Clone, Copy)]
pub struct Ran {
    // the run that is now open
    pub run: Option<Run>,
    // how many bytes were handed out
    pub bytes: usize,
}

impl Run {
    // The first byte of its unit, from NRI and type: the forbidden bit is set where it was in any fragment.
    fn header(self, head: u8) -> u8
        ensures { result ≡ top_bit self.marked head }
    {
        if self.marked { 128 + head % 128 } else { head }
    }
}

// A later fragment of the open run's own time, whose mark the run has by now; its data follow two bytes.
// Stays: a payload of at most 65,535 bytes and a run within the gather buffer are asked for by each of these: a struct of both would be taken apart at each call of `nal`.
fn feed_later(
    run: Run,
    prefix: Prefix,
    // Stays: a bit of the packet, and no choice of the caller.
    last: bool,
    head: u8,
    payload: &[u8],
    gather: &mut [u8],
    out: &mut [u8],
) -> Result<Ran, Error>
    requires { (2 ≤ length payload.now) × (length payload.now ≤ 65535) × (run.gathered ≤ length gather.old) }
    ensures { ran_heard result gather.new out.new ≡ lay_does (is_avc prefix) gather.old out.old (says (goes_on last head (note_of run) (take run.gathered gather.old ++ drop 2 payload.now))) }
{
    let part = &payload[2..];
    if last {
        let header = run.header(head);
        let bytes = nal::finish(part, run.gathered, &[header], prefix, gather, out)?;
        return Ok(Ran { run: None, bytes });
    }
    let bytes = nal::gather_on(part, run.gathered, gather)?;
    let run = Run {
        gathered: run.gathered + part.len(),
        marked: run.marked,
        time: run.time,
    };
    Ok(Ran {
        run: Some(run),
        bytes,
    })
}

// A fragment: 21, then 25, then what it does. "A start fragment replaces the run", whatever its time. It is marked by F, the forbidden
// bit. RFC 6184, section 5.3:
//
// +---------------+
// |0|1|2|3|4|5|6|7|
// +-+-+-+-+-+-+-+-+
// |F|NRI|  Type   |
// +---------------+
// Stays: what a fragment's header says goes by itself, as `Kind` has it, and is no choice of the caller.
fn feed_fragment(
    run: Option<Run>,
    prefix: Prefix,
    time: u32,
    first: bool,
    last: bool,
    head: u8,
    payload: &[u8],
    gather: &mut [u8],
    out: &mut [u8],
) -> Result<Ran, Error>
    requires { (2 ≤ length payload.now) × (length payload.now ≤ 65535) × ((held_in run).gathered ≤ length gather.old) }
    ensures { ran_heard result gather.new out.new ≡ lay_does (is_avc prefix) gather.old out.old (fed_after (run_of run gather.old) time (fragmented first last head (fragment_in payload.now))) }
{
    let marked = payload[0] / 128 % 2 == 1;
    if first && last {
        return Err(Error::StartAndEnd);
    }
    if first {
        let part = &payload[2..];
        let bytes = nal::gather_on(part, 0, gather)?;
        let gathered = part.len();
        return Ok(Ran {
            run: Some(Run {
                gathered,
                marked,
                time,
            }),
            bytes,
        });
    }
    match run {
        None => Ok(Ran {
            run: None,
            bytes: 0,
        }),
        Some(run) if run.time != time => Err(Error::OtherTime),
        Some(run) => {
            let run = Run {
                marked: run.marked || marked,
                ..run
            };
            feed_later(run, prefix, last, head, payload, gather, out)
        }
    }
}

pub fn feed(
    run: Option<Run>,
    prefix: Prefix,
    time: u32,
    payload: &[u8],
    gather: &mut [u8],
    out: &mut [u8],
) -> Result<Ran, Error>
    requires { (length payload.now ≤ 65535) × ((held_in run).gathered ≤ length gather.old) }
    ensures { ran_heard result gather.new out.new ≡ lay_does (is_avc prefix) gather.old out.old (fed_after (run_of run gather.old) time (check payload.now)) }
{
    let kind = nal_read::kind_of(payload);
    match kind {
        Kind::Short => Err(Error::ErrShortPacket),
        Kind::Unknown(t) => Err(Error::NaluTypeIsNotHandled(t)),
        Kind::Plain => {
            let bytes = nal::hand_plain(payload, prefix, out)?;
            Ok(Ran { run: None, bytes }) // "Plain units and STAP-A drop the run"
        }
        Kind::Aggregate => {
            let bytes = nal_read::hand_stap_a(payload, prefix, out)?;
            Ok(Ran { run: None, bytes })
        }
        Kind::Fragment { first, last, head } => {
            feed_fragment(run, prefix, time, first, last, head, payload, gather, out)
        }
    }
}
