// Reading a payload.
ghost use Rattle.std.specs.Prelude.{◌≡◌, false, ◌++◌, ◌≤◌, length, take, drop};
ghost use Rattle.error.specs.Refusal.{refusal_of};
ghost use Rattle.error.specs.Said.{says, refused, said};
ghost use Rattle.nal_read.specs.Kind.{fragment, shape};
ghost use Rattle.nal.specs.Said.{is_avc};
ghost use Rattle.nal.specs.Ran.{lay_run};
ghost use Rattle.h264_packet.specs.Run.{run_of, recorded};
ghost use Rattle.h264_packet.specs.Depacketize.{gathered_on, read_payload, depacketized, nowhere, shown_of};
ghost use Rattle.h264_packet.specs.Said.{ran_heard, Shows, said_shown, heard, depacketized_heard};

use crate::{Depacketized, H264Packet, Ran, Shown};
use error::Error;
use nal::Prefix;
use nal_read::Kind;

// A fragment behind the `run` bytes gathered before it, regardless of the start bit.
// Stays: payload, gather buffer and output by themselves, as the caller lends them.
fn read_fragment(
    prefix: Prefix,
    run: usize,
    // Stays: a bit of the packet, and no choice of the caller.
    last: bool,
    head: u8,
    payload: &[u8],
    gather: &mut [u8],
    out: &mut [u8],
) -> Result<Ran, Error>
    requires { (3 ≤ length payload.now) × (length payload.now ≤ 65535) × (run ≤ length gather.old) }
    ensures { (ran_heard result gather.new out.new ≡ lay_run recorded (is_avc prefix) gather.old out.old (says (gathered_on (take run gather.old ++ drop 2 payload.now) last head)))
        × Shows result (shown_of (fragment false last head) run (length payload.now)) }
{
    let part = &payload[2..];
    let end = run + part.len();
    if last {
        let bytes = nal::finish(part, run, &[head], prefix, gather, out)?;
        return Ok(Ran {
            gathered: 0,
            bytes,
            shown: Shown::Gather(end),
        });
    }
    let bytes = nal::gather_on(part, run, gather)?;
    Ok(Ran {
        gathered: end,
        bytes,
        shown: Shown::Nowhere,
    })
}

fn read_payload(
    prefix: Prefix,
    run: usize,
    payload: &[u8],
    gather: &mut [u8],
    out: &mut [u8],
) -> Result<Ran, Error>
    requires { (length payload.now ≤ 65535) × (run ≤ length gather.old) × (run ≤ 16777215) }
    ensures { (ran_heard result gather.new out.new ≡ lay_run recorded (is_avc prefix) gather.old out.old (read_payload (run_of run gather.old) payload.now))
        × Shows result (shown_of (shape payload.now) run (length payload.now)) }
{
    let kind = nal_read::kind_of(payload);
    match kind {
        Kind::Short => Err(Error::ErrShortPacket),
        Kind::Unknown(t) => Err(Error::NaluTypeIsNotHandled(t)),
        Kind::Plain => {
            let bytes = nal::hand_plain(payload, prefix, out)?;
            Ok(Ran {
                gathered: run,
                bytes,
                shown: Shown::Packet,
            })
        }
        Kind::Aggregate => {
            let bytes = nal_read::hand_stap_a(payload, prefix, out)?;
            Ok(Ran {
                gathered: run,
                bytes,
                shown: Shown::Nowhere,
            })
        }
        Kind::Fragment {
            first: _,
            last,
            head,
        } => read_fragment(prefix, run, last, head, payload, gather, out),
    }
}

impl H264Packet {
    fn prefix(self) -> Prefix
        ensures { is_avc result ≡ self.is_avc }
    {
        if self.is_avc {
            Prefix::Length
        } else {
            Prefix::StartCode
        }
    }

    fn refused(self, e: Error) -> Depacketized
        ensures { (result.packet ≡ self) × (said result.answer ≡ refused (refusal_of e)) × (said_shown result.shown ≡ nowhere) }
    {
        Depacketized {
            packet: self,
            answer: Err(e),
            shown: Shown::Nowhere,
        }
    }

    // Reads a payload: units go to the front of out, fragments behind what gather holds. A refusal changes nothing.
    pub fn depacketize(self, payload: &[u8], gather: &mut [u8], out: &mut [u8]) -> Depacketized
        ensures { heard result gather.new out.new ≡ depacketized_heard self payload.now (depacketized self.is_avc self.gathered payload.now gather.old out.old) }
    {
        let run = self.gathered;
        if 65535 < payload.len() || gather.len() < run || 16777215 < run {
            return self.refused(Error::OutsideDomain);
        }
        match read_payload(self.prefix(), run, payload, gather, out) {
            Ok(ran) => Depacketized {
                packet: H264Packet {
                    is_avc: self.is_avc,
                    gathered: ran.gathered,
                },
                answer: Ok(ran.bytes),
                shown: ran.shown,
            },
            Err(e) => self.refused(e),
        }
    }
}
