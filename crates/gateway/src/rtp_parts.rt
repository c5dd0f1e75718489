// Headers and packets in parts: what is small of a header's record by value, its arrays lent, so that no record is copied.
ghost use Rattle.std.specs.Prelude.{◌≡◌, length};
ghost use Rattle.error.specs.Said.{said};
ghost use Rattle.header.specs.Read.{read_header};
ghost use Rattle.header.specs.Size.{size_asked, length_asked};
ghost use Rattle.header.specs.Write.{write_header};
ghost use Rattle.header.specs.Extension.{get_extension, get_extension_ids};
ghost use Rattle.header.specs.Said.{written, ids_heard, reading_heard as header_heard};
ghost use Rattle.header.specs.Parts.{together, bare, heard_front as heard_header, front_heard as header_front, lent_read as header_lent};
ghost use Rattle.packet.specs.Read.{read_packet};
ghost use Rattle.packet.specs.Write.{packet_size_asked, write_packet};
ghost use Rattle.packet.specs.Said.{reading_heard as packet_heard};
ghost use Rattle.packet.specs.Fronts.{heard_front as heard_packet, front_heard as packet_front, lent_read as packet_lent};
ghost use Rattle.gateway.specs.HeaderAnswers.{element_as, ids_as};
ghost use Rattle.gateway.specs.PartsAnswers.{bytes_as, header_front_as, packet_front_as};

use crate::rtp_extension::{RtpElement, RtpIds};
use error::Error;
use header::{Fixed, Front, Parts};
use packet::Payload;

// A number of bytes. The refusals of these calls carry nothing.
#[repr(C)]
#[derive(Clone, Copy)]
pub struct RtpBytes {
    // 0 where the call answers; else which refusal it is: 5, 8, 9 or 10
    pub number: usize,
    // 0 beside a refusal
    pub bytes: usize,
}

// A header that was read, without its arrays.
#[repr(C)]
#[derive(Clone, Copy)]
pub struct RtpHeaderFront {
    // 0 where the call answers; else which refusal it is: 1, 2, 3, 7 or 8
    pub number: usize,
    // the payload's place in the packet; 0 beside a refusal
    pub at: usize,
    // all zeros beside a refusal
    pub front: Front,
}

// A packet that was read, without its header's arrays: its payload is `len` bytes of it from `at` on.
#[repr(C)]
#[derive(Clone, Copy)]
pub struct RtpPacketFront {
    // 0 where the call answers; else which refusal it is: 1, 2, 3, 4, 7 or 8
    pub number: usize,
    // 0 beside a refusal
    pub at: usize,
    // likewise
    pub len: usize,
    // all zeros beside a refusal
    pub front: Front,
}

impl From<Result<usize, Error>> for RtpBytes {
    ghost from_gives = { λ answer r. r ≡ bytes_as (said answer) };

    fn from(answer: Result<usize, Error>) -> RtpBytes {
        match answer {
            Ok(bytes) => RtpBytes { number: 0, bytes },
            Err(e) => RtpBytes {
                number: usize::from(e.number()),
                bytes: 0,
            },
        }
    }
}

impl From<header::FrontRead> for RtpHeaderFront {
    ghost from_gives = { λ answer r. r ≡ header_front_as (heard_header answer) };

    fn from(answer: header::FrontRead) -> RtpHeaderFront {
        let read = answer.read;
        let front = answer.front;
        match read {
            Ok(at) => RtpHeaderFront {
                number: 0,
                at,
                front,
            },
            Err(e) => RtpHeaderFront {
                number: usize::from(e.number()),
                at: 0,
                front,
            },
        }
    }
}

impl From<packet::FrontRead> for RtpPacketFront {
    ghost from_gives = { λ answer r. r ≡ packet_front_as (heard_packet answer) };

    fn from(answer: packet::FrontRead) -> RtpPacketFront {
        let read = answer.read;
        let front = answer.front;
        match read {
            Ok(Payload { at, len }) => RtpPacketFront {
                number: 0,
                at,
                len,
                front,
            },
            Err(e) => RtpPacketFront {
                number: usize::from(e.number()),
                at: 0,
                len: 0,
                front,
            },
        }
    }
}

// Writes the header of a record in parts.
#[unsafe(no_mangle)]
pub extern "C" fn rtp_header_marshal_parts<'a>(
    fixed: Fixed,
    csrc_count: usize,
    csrc: &'a [u32; 15],
    profile: u16,
    count: usize,
    ids: &'a [u8; 32],
    lens: &'a [u16; 32],
    bytes: &'a [u8; 1024],
    padding: usize,
    buf: &mut [u8],
) -> RtpBytes
    ensures value { result ≡ bytes_as (written buf.old (write_header (together fixed csrc_count csrc.now profile (record { count = count; ids = ids.now; lens = lens.now; bytes = bytes.now }) padding) (length buf.old))).answer }
    ensures buf_after { buf.new ≡ (written buf.old (write_header (together fixed csrc_count csrc.now profile (record { count = count; ids = ids.now; lens = lens.now; bytes = bytes.now }) padding) (length buf.old))).buffer }
{
    let parts = Parts {
        fixed,
        csrc_count,
        csrc,
        profile,
        count,
        ids,
        lens,
        bytes,
        padding,
    };
    RtpBytes::from(header::marshal_parts(parts, buf))
}

// Writes a header without CSRCs and elements.
#[unsafe(no_mangle)]
pub extern "C" fn rtp_header_marshal_bare(
    fixed: Fixed,
    profile: u16,
    padding: usize,
    buf: &mut [u8],
) -> RtpBytes
    ensures value { result ≡ bytes_as (written buf.old (write_header (bare fixed profile padding) (length buf.old))).answer }
    ensures buf_after { buf.new ≡ (written buf.old (write_header (bare fixed profile padding) (length buf.old))).buffer }
{
    RtpBytes::from(header::marshal_bare(fixed, profile, padding, buf))
}

// Writes a packet, its header's record in parts.
#[unsafe(no_mangle)]
pub extern "C" fn rtp_packet_marshal_parts<'a>(
    fixed: Fixed,
    csrc_count: usize,
    csrc: &'a [u32; 15],
    profile: u16,
    count: usize,
    ids: &'a [u8; 32],
    lens: &'a [u16; 32],
    bytes: &'a [u8; 1024],
    padding: usize,
    payload: &[u8],
    buf: &mut [u8],
) -> RtpBytes
    ensures value { result ≡ bytes_as (written buf.old (write_packet (together fixed csrc_count csrc.now profile (record { count = count; ids = ids.now; lens = lens.now; bytes = bytes.now }) padding) payload.now (length buf.old))).answer }
    ensures buf_after { buf.new ≡ (written buf.old (write_packet (together fixed csrc_count csrc.now profile (record { count = count; ids = ids.now; lens = lens.now; bytes = bytes.now }) padding) payload.now (length buf.old))).buffer }
{
    let parts = Parts {
        fixed,
        csrc_count,
        csrc,
        profile,
        count,
        ids,
        lens,
        bytes,
        padding,
    };
    RtpBytes::from(packet::marshal_parts(parts, payload, buf))
}

// Writes a packet whose header has no CSRCs and elements.
#[unsafe(no_mangle)]
pub extern "C" fn rtp_packet_marshal_bare(
    fixed: Fixed,
    profile: u16,
    padding: usize,
    payload: &[u8],
    buf: &mut [u8],
) -> RtpBytes
    ensures value { result ≡ bytes_as (written buf.old (write_packet (bare fixed profile padding) payload.now (length buf.old))).answer }
    ensures buf_after { buf.new ≡ (written buf.old (write_packet (bare fixed profile padding) payload.now (length buf.old))).buffer }
{
    RtpBytes::from(packet::marshal_bare(fixed, profile, padding, payload, buf))
}

// The size of a header.
#[unsafe(no_mangle)]
pub extern "C" fn rtp_header_marshal_size_parts<'a>(
    fixed: Fixed,
    csrc_count: usize,
    csrc: &'a [u32; 15],
    profile: u16,
    count: usize,
    ids: &'a [u8; 32],
    lens: &'a [u16; 32],
    bytes: &'a [u8; 1024],
    padding: usize,
) -> RtpBytes
    ensures { result ≡ bytes_as (size_asked (together fixed csrc_count csrc.now profile (record { count = count; ids = ids.now; lens = lens.now; bytes = bytes.now }) padding)) }
{
    let parts = Parts {
        fixed,
        csrc_count,
        csrc,
        profile,
        count,
        ids,
        lens,
        bytes,
        padding,
    };
    RtpBytes::from(header::marshal_size_parts(parts))
}

// How long a header's elements are with their heads.
#[unsafe(no_mangle)]
pub extern "C" fn rtp_header_get_extension_payload_len_parts<'a>(
    fixed: Fixed,
    csrc_count: usize,
    csrc: &'a [u32; 15],
    profile: u16,
    count: usize,
    ids: &'a [u8; 32],
    lens: &'a [u16; 32],
    bytes: &'a [u8; 1024],
    padding: usize,
) -> RtpBytes
    ensures { result ≡ bytes_as (length_asked (together fixed csrc_count csrc.now profile (record { count = count; ids = ids.now; lens = lens.now; bytes = bytes.now }) padding)) }
{
    let parts = Parts {
        fixed,
        csrc_count,
        csrc,
        profile,
        count,
        ids,
        lens,
        bytes,
        padding,
    };
    RtpBytes::from(header::get_extension_payload_len_parts(parts))
}

// An element's data, as a part of `bytes`.
#[unsafe(no_mangle)]
pub extern "C" fn rtp_header_get_extension_parts<'a>(
    fixed: Fixed,
    csrc_count: usize,
    csrc: &'a [u32; 15],
    profile: u16,
    count: usize,
    ids: &'a [u8; 32],
    lens: &'a [u16; 32],
    bytes: &'a [u8; 1024],
    padding: usize,
    id: u8,
) -> RtpElement
    ensures { result ≡ element_as (get_extension (together fixed csrc_count csrc.now profile (record { count = count; ids = ids.now; lens = lens.now; bytes = bytes.now }) padding) id) }
{
    let parts = Parts {
        fixed,
        csrc_count,
        csrc,
        profile,
        count,
        ids,
        lens,
        bytes,
        padding,
    };
    RtpElement::from(header::get_extension_parts(parts, id))
}

// The ids of all elements.
#[unsafe(no_mangle)]
pub extern "C" fn rtp_header_get_extension_ids_parts<'a>(
    fixed: Fixed,
    csrc_count: usize,
    csrc: &'a [u32; 15],
    profile: u16,
    count: usize,
    ids: &'a [u8; 32],
    lens: &'a [u16; 32],
    bytes: &'a [u8; 1024],
    padding: usize,
) -> RtpIds
    ensures { result ≡ ids_as (ids_heard (get_extension_ids (together fixed csrc_count csrc.now profile (record { count = count; ids = ids.now; lens = lens.now; bytes = bytes.now }) padding))) }
{
    let parts = Parts {
        fixed,
        csrc_count,
        csrc,
        profile,
        count,
        ids,
        lens,
        bytes,
        padding,
    };
    RtpIds::from(header::get_extension_ids_parts(parts))
}

// The size of a packet.
#[unsafe(no_mangle)]
pub extern "C" fn rtp_packet_marshal_size_parts<'a>(
    fixed: Fixed,
    csrc_count: usize,
    csrc: &'a [u32; 15],
    profile: u16,
    count: usize,
    ids: &'a [u8; 32],
    lens: &'a [u16; 32],
    bytes: &'a [u8; 1024],
    padding: usize,
    payload: &[u8],
) -> RtpBytes
    ensures { result ≡ bytes_as (packet_size_asked (together fixed csrc_count csrc.now profile (record { count = count; ids = ids.now; lens = lens.now; bytes = bytes.now }) padding) payload.now) }
{
    let parts = Parts {
        fixed,
        csrc_count,
        csrc,
        profile,
        count,
        ids,
        lens,
        bytes,
        padding,
    };
    RtpBytes::from(packet::marshal_size_parts(parts, payload))
}

// Reads a header without its arrays.
#[unsafe(no_mangle)]
pub extern "C" fn rtp_header_unmarshal_front(packet: &[u8]) -> RtpHeaderFront
    ensures { result ≡ header_front_as (header_front (header_heard (read_header packet.now))) }
{
    RtpHeaderFront::from(header::unmarshal_front(packet))
}

// Reads a header; its arrays are lent.
#[unsafe(no_mangle)]
pub extern "C" fn rtp_header_unmarshal_parts(
    packet: &[u8],
    csrc: &mut [u32; 15],
    ids: &mut [u8; 32],
    lens: &mut [u16; 32],
    bytes: &mut [u8; 1024],
) -> RtpHeaderFront
    ensures value { result ≡ header_front_as (header_front (header_heard (read_header packet.now))) }
    ensures bytes_after { record { csrc = csrc.new; ids = ids.new; lens = lens.new; bytes = bytes.new }
        ≡ header_lent (record { csrc = csrc.old; ids = ids.old; lens = lens.old; bytes = bytes.old }) (read_header packet.now) }
{
    RtpHeaderFront::from(header::unmarshal_parts(packet, csrc, ids, lens, bytes))
}

// Reads a packet without its header's arrays.
#[unsafe(no_mangle)]
pub extern "C" fn rtp_packet_unmarshal_front(packet: &[u8]) -> RtpPacketFront
    ensures { result ≡ packet_front_as (packet_front (packet_heard (read_packet packet.now))) }
{
    RtpPacketFront::from(packet::unmarshal_front(packet))
}

// Reads a packet; its header's arrays are lent.
#[unsafe(no_mangle)]
pub extern "C" fn rtp_packet_unmarshal_parts(
    packet: &[u8],
    csrc: &mut [u32; 15],
    ids: &mut [u8; 32],
    lens: &mut [u16; 32],
    bytes: &mut [u8; 1024],
) -> RtpPacketFront
    ensures value { result ≡ packet_front_as (packet_front (packet_heard (read_packet packet.now))) }
    ensures bytes_after { record { csrc = csrc.new; ids = ids.new; lens = lens.new; bytes = bytes.new }
        ≡ packet_lent (record { csrc = csrc.old; ids = ids.old; lens = lens.old; bytes = bytes.old }) (read_packet packet.now) }
{
    RtpPacketFront::from(packet::unmarshal_parts(packet, csrc, ids, lens, bytes))
}
