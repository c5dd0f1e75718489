// H.264: frames sent, payloads read, the partition tests.
ghost use Rattle.std.specs.Prelude.{◌≡◌, [], ℕ, ◌≤◌, length};
ghost use Rattle.h264_put.specs.Groups.{nothing_saved};
ghost use Rattle.error.specs.Said.{said};
ghost use Rattle.h264.specs.Payload.{lay_out, left, left_lent, payload_of, lent_of};
ghost use Rattle.h264_packet.specs.Depacketize.{depacketized, in_packet, Lies, head_test};
ghost use Rattle.h264_packet.specs.Said.{said_shown, heard, depacketized_heard};
ghost use Rattle.gateway.specs.Refused.{test_as};
ghost use Rattle.gateway.specs.H264Answers.{counted_as, h264_sent_as, lent, h264_lent_sent_as, body_nowhere, body_as, h264_read_as};

use crate::refused::{Refused, RtpTest, answered};
use error::Error;
use h264::{H264Payloader, LentPayloader, Sent, Written};
use h264_packet::{Depacketized, H264Packet, Shown};

// The payloads of a frame.
#[repr(C)]
#[derive(Clone, Copy)]
pub struct RtpH264Sent {
    pub refused: Refused,
    // how many packets were written; 0 beside a refusal
    pub packets: usize,
    // how many bytes they have together; 0 beside a refusal
    pub bytes: usize,
    // how many units were dropped for the mtu; 0 beside a refusal
    pub units_dropped: usize,
    // how many pairs of parameter sets were dropped for the mtu; 0 beside a refusal
    pub pairs_dropped: usize,
    // the sender for the next frame; as it came beside a refusal
    pub sender: H264Payloader,
}

// The payloads of a frame, where the parameter sets lie in lent buffers.
// Stays: a record of its own, since no struct with type arguments stands in an exported signature, and C has none.
#[repr(C)]
#[derive(Clone, Copy)]
pub struct RtpH264LentSent {
    pub refused: Refused,
    // how many packets were written; 0 beside a refusal
    pub packets: usize,
    // how many bytes they have together; 0 beside a refusal
    pub bytes: usize,
    // how many units were dropped for the mtu; 0 beside a refusal
    pub units_dropped: usize,
    // how many pairs of parameter sets were dropped for the mtu; 0 beside a refusal
    pub pairs_dropped: usize,
    // the lengths for the next frame, of what stands in front of the buffers then; as they came beside a refusal
    pub sender: LentPayloader,
}

// What both of these records say before the sender.
#[derive(Clone, Copy)]
struct Counted {
    refused: Refused,
    // how many packets were written; 0 beside a refusal
    packets: usize,
    // how many bytes they have together; 0 beside a refusal
    bytes: usize,
    // how many units were dropped for the mtu; 0 beside a refusal
    units_dropped: usize,
    // how many pairs of parameter sets were dropped for the mtu; 0 beside a refusal
    pairs_dropped: usize,
}

// Where the body of the unit that a payload completed lies: `len` bytes from `at` on.
#[repr(C)]
#[derive(Clone, Copy)]
pub struct RtpBody {
    // 0: nowhere; 1: in the payload; 2: in the gather buffer
    pub lies_in: u8,
    pub at: usize,
    pub len: usize,
}

// A payload that was read.
#[repr(C)]
#[derive(Clone, Copy)]
pub struct RtpH264Read {
    pub refused: Refused,
    // how many bytes were handed out; 0 beside a refusal
    pub bytes: usize,
    // nowhere beside a refusal
    pub body: RtpBody,
    // the reader for the next payload; as it came beside a refusal
    pub packet: H264Packet,
}

impl From<Result<Written, Error>> for Counted {
    ghost from_gives = { λ x r. r ≡ counted_as (said x) };

    fn from(answer: Result<Written, Error>) -> Counted {
        match answer {
            Ok(written) => Counted {
                refused: answered(),
                packets: written.packets,
                bytes: written.bytes,
                units_dropped: written.units_dropped,
                pairs_dropped: written.pairs_dropped,
            },
            Err(e) => Counted {
                refused: Refused::from(e),
                packets: 0,
                bytes: 0,
                units_dropped: 0,
                pairs_dropped: 0,
            },
        }
    }
}

impl From<Sent<H264Payloader>> for RtpH264Sent {
    ghost from_gives = { λ sent r. r ≡ h264_sent_as (left sent [] []) };

    fn from(sent: Sent<H264Payloader>) -> RtpH264Sent {
        let counted = Counted::from(sent.answer);
        RtpH264Sent {
            refused: counted.refused,
            packets: counted.packets,
            bytes: counted.bytes,
            units_dropped: counted.units_dropped,
            pairs_dropped: counted.pairs_dropped,
            sender: sent.sender,
        }
    }
}

impl From<Sent<LentPayloader>> for RtpH264LentSent {
    ghost from_gives = { λ sent r. r ≡ h264_lent_sent_as (left_lent sent [] [] [] []) };

    fn from(sent: Sent<LentPayloader>) -> RtpH264LentSent {
        let counted = Counted::from(sent.answer);
        RtpH264LentSent {
            refused: counted.refused,
            packets: counted.packets,
            bytes: counted.bytes,
            units_dropped: counted.units_dropped,
            pairs_dropped: counted.pairs_dropped,
            sender: sent.sender,
        }
    }
}

fn nowhere() -> RtpBody
    ensures { result ≡ body_nowhere }
{
    RtpBody {
        lies_in: 0,
        at: 0,
        len: 0,
    }
}

// Where `h264_packet::body` shows it, in a payload of this length and any gather buffer that holds it.
fn body(shown: Shown, payload: usize) -> RtpBody
    requires { said_shown shown ≡ in_packet → 1 ≤ payload }
    ensures { (gather : ℕ) → Lies (said_shown shown) payload gather → result ≡ body_as (said_shown shown) payload gather }
{
    match shown {
        Shown::Nowhere => nowhere(),
        Shown::Packet => RtpBody {
            lies_in: 1,
            at: 1,
            len: payload - 1,
        },
        Shown::Gather(len) => RtpBody {
            lies_in: 2,
            at: 0,
            len,
        },
    }
}

fn h264_read(answer: Depacketized, payload: usize) -> RtpH264Read
    requires { said_shown answer.shown ≡ in_packet → 1 ≤ payload }
    ensures { (gather : ℕ) → Lies (said_shown answer.shown) payload gather → result ≡ h264_read_as (heard answer [] []) payload gather }
{
    let read = answer.answer;
    let shown = answer.shown;
    let packet = answer.packet;
    match read {
        Ok(bytes) => RtpH264Read {
            refused: answered(),
            bytes,
            body: body(shown, payload),
            packet,
        },
        Err(e) => RtpH264Read {
            refused: Refused::from(e),
            bytes: 0,
            body: body(shown, payload),
            packet,
        },
    }
}

// A sender with nothing saved.
#[unsafe(no_mangle)]
pub extern "C" fn rtp_h264_payloader_new() -> H264Payloader
    ensures { result ≡ lay_out nothing_saved }
{
    H264Payloader::new()
}

// The payloads of a frame, each of at most mtu bytes, one behind the other in out; ends says where each ends. What cannot go so is dropped, and
// counted.
#[unsafe(no_mangle)]
pub extern "C" fn rtp_h264_payload(
    sender: H264Payloader,
    mtu: usize,
    frame: &[u8],
    out: &mut [u8],
    ends: &mut [usize],
) -> RtpH264Sent
    ensures value { result ≡ h264_sent_as (payload_of sender mtu frame.now out.old ends.old) }
    ensures out_after { out.new ≡ (payload_of sender mtu frame.now out.old ends.old).out }
    ensures ends_after { ends.new ≡ (payload_of sender mtu frame.now out.old ends.old).ends }
{
    RtpH264Sent::from(sender.payload(mtu, frame, out, ends))
}

// The same with the parameter sets in two lent buffers, so that nothing of their size goes by value: for hosts that send a frame a call.
#[unsafe(no_mangle)]
pub extern "C" fn rtp_h264_lent_payload(
    sender: LentPayloader,
    sps: &mut [u8; 1024],
    pps: &mut [u8; 1024],
    mtu: usize,
    frame: &[u8],
    out: &mut [u8],
    ends: &mut [usize],
) -> RtpH264LentSent
    ensures value { result ≡ h264_lent_sent_as (lent_of (lent sender sps.old pps.old) mtu frame.now out.old ends.old) }
    ensures sps_after { sps.new ≡ (lent_of (lent sender sps.old pps.old) mtu frame.now out.old ends.old).sender.sps }
    ensures pps_after { pps.new ≡ (lent_of (lent sender sps.old pps.old) mtu frame.now out.old ends.old).sender.pps }
    ensures out_after { out.new ≡ (lent_of (lent sender sps.old pps.old) mtu frame.now out.old ends.old).out }
    ensures ends_after { ends.new ≡ (lent_of (lent sender sps.old pps.old) mtu frame.now out.old ends.old).ends }
{
    RtpH264LentSent::from(sender.payload(sps, pps, mtu, frame, out, ends))
}

// Reads a payload: fragments are gathered in gather, whole units handed out in out.
#[unsafe(no_mangle)]
pub extern "C" fn rtp_h264_depacketize(
    packet: H264Packet,
    payload: &[u8],
    gather: &mut [u8],
    out: &mut [u8],
) -> RtpH264Read
    ensures value { result ≡ h264_read_as (depacketized_heard packet payload.now (depacketized packet.is_avc packet.gathered payload.now gather.old out.old)) (length payload.now) (length gather.old) }
    ensures gather_after { gather.new ≡ (depacketized_heard packet payload.now (depacketized packet.is_avc packet.gathered payload.now gather.old out.old)).gather }
    ensures out_after { out.new ≡ (depacketized_heard packet payload.now (depacketized packet.is_avc packet.gathered payload.now gather.old out.old)).out }
{
    h264_read(packet.depacketize(payload, gather, out), payload.len())
}

#[unsafe(no_mangle)]
pub extern "C" fn rtp_h264_is_partition_head(payload: &[u8]) -> RtpTest
    ensures { result ≡ test_as (head_test payload.now) }
{
    RtpTest::from(h264_packet::is_partition_head(payload))
}

#[unsafe(no_mangle)]
pub extern "C" fn rtp_h264_is_partition_tail(marker: bool) -> bool
    ensures { result ≡ marker }
{
    h264_packet::is_partition_tail(marker)
}
