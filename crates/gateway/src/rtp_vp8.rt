// VP8: frames sent, payloads read, the partition tests.
ghost use Rattle.std.specs.Prelude.{◌≡◌, []};
ghost use Rattle.error.specs.Said.{said};
ghost use Rattle.vp8_send.specs.Send.{payloaded};
ghost use Rattle.vp8_send.specs.SendAnswer.{sending};
ghost use Rattle.vp8_read.specs.Read.{depacketized};
ghost use Rattle.vp8_read.specs.ReadAnswer.{reading};
ghost use Rattle.vp8_read.specs.Partition.{partition_head};
ghost use Rattle.gateway.specs.Refused.{test_as};
ghost use Rattle.gateway.specs.Vp8Answers.{vp8_sent_as, vp8_read_as};

use crate::refused::{Refused, RtpTest, answered};
use error::Error;
use vp8::{Vp8Depacketized, Vp8Packet, Vp8Payloaded, Vp8Payloader, Vp8Sent};

// The payloads of a frame.
#[repr(C)]
#[derive(Clone, Copy)]
pub struct RtpVp8Sent {
    pub refused: Refused,
    // how many packets were written; 0 beside a refusal
    pub packets: usize,
    // how many bytes they have together; 0 beside a refusal
    pub bytes: usize,
    // the payloader for the next frame; as it came beside a refusal
    pub payloader: Vp8Payloader,
}

// A payload that was read.
#[repr(C)]
#[derive(Clone, Copy)]
pub struct RtpVp8Read {
    pub refused: Refused,
    // where the VP8 payload begins: it is all from there on; 0 beside a refusal
    pub at: usize,
    // the fields as they are now
    pub packet: Vp8Packet,
}

impl From<Vp8Payloaded> for RtpVp8Sent {
    ghost from_gives = { λ answer r. r ≡ vp8_sent_as (sending answer [] []) };

    fn from(answer: Vp8Payloaded) -> RtpVp8Sent {
        let payloader = answer.payloader;
        match answer.answer {
            Ok(Vp8Sent { packets, bytes }) => RtpVp8Sent {
                refused: answered(),
                packets,
                bytes,
                payloader,
            },
            Err(e) => RtpVp8Sent {
                refused: Refused::from(e),
                packets: 0,
                bytes: 0,
                payloader,
            },
        }
    }
}

impl From<Vp8Depacketized> for RtpVp8Read {
    ghost from_gives = { λ answer r. r ≡ vp8_read_as (reading answer) };

    fn from(answer: Vp8Depacketized) -> RtpVp8Read {
        let packet = answer.packet;
        match answer.read {
            Ok(at) => RtpVp8Read {
                refused: answered(),
                at,
                packet,
            },
            Err(e) => RtpVp8Read {
                refused: Refused::from(e),
                at: 0,
                packet,
            },
        }
    }
}

// The payloads of a frame, each of at most mtu bytes, one behind the other in out; ends says where each ends.
#[unsafe(no_mangle)]
pub extern "C" fn rtp_vp8_payload(
    payloader: Vp8Payloader,
    mtu: usize,
    frame: &[u8],
    out: &mut [u8],
    ends: &mut [usize],
) -> RtpVp8Sent
    ensures value { result ≡ vp8_sent_as (payloaded payloader mtu frame.now out.old ends.old) }
    ensures out_after { out.new ≡ (payloaded payloader mtu frame.now out.old ends.old).out }
    ensures ends_after { ends.new ≡ (payloaded payloader mtu frame.now out.old ends.old).ends }
{
    RtpVp8Sent::from(payloader.payload(mtu, frame, out, ends))
}

// Reads the descriptor in front of a payload. A field that it does not have keeps its value.
#[unsafe(no_mangle)]
pub extern "C" fn rtp_vp8_depacketize(packet: Vp8Packet, payload: &[u8]) -> RtpVp8Read
    ensures { result ≡ vp8_read_as (depacketized packet payload.now) }
{
    RtpVp8Read::from(packet.depacketize(payload))
}

#[unsafe(no_mangle)]
pub extern "C" fn rtp_vp8_is_partition_head(payload: &[u8]) -> RtpTest
    ensures { result ≡ test_as (partition_head payload.now) }
{
    RtpTest::from(vp8::is_partition_head(payload))
}

#[unsafe(no_mangle)]
pub extern "C" fn rtp_vp8_is_partition_tail(marker: bool) -> bool
    ensures { result ≡ marker }
{
    vp8::is_partition_tail(marker)
}
