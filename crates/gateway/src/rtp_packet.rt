// The packet with its padding: read, sized, written.
ghost use Rattle.std.specs.Prelude.{◌≡◌, length};
ghost use Rattle.header.specs.Said.{written};
ghost use Rattle.packet.specs.Read.{read_packet};
ghost use Rattle.packet.specs.Write.{packet_size_asked, write_packet};
ghost use Rattle.packet.specs.Said.{heard, reading_heard};
ghost use Rattle.gateway.specs.HeaderAnswers.{length_as};
ghost use Rattle.gateway.specs.PacketAnswers.{packet_read_as};

use crate::refused::{Refused, answered};
use crate::rtp_header::RtpLength;
use header::Header;
use packet::{Payload, Unmarshalled};

// A packet that was read: its payload is `len` bytes of it from `at` on.
#[repr(C)]
#[derive(Clone, Copy)]
pub struct RtpPacketRead {
    pub refused: Refused,
    // 0 beside a refusal
    pub at: usize,
    // likewise
    pub len: usize,
    // all zeros beside a refusal
    pub header: Header,
}

impl From<Unmarshalled> for RtpPacketRead {
    ghost from_gives = { λ answer r. r ≡ packet_read_as (heard answer) };

    fn from(answer: Unmarshalled) -> RtpPacketRead {
        let read = answer.read;
        let header = answer.header;
        match read {
            Ok(Payload { at, len }) => RtpPacketRead {
                refused: answered(),
                at,
                len,
                header,
            },
            Err(e) => RtpPacketRead {
                refused: Refused::from(e),
                at: 0,
                len: 0,
                header,
            },
        }
    }
}

#[unsafe(no_mangle)]
pub extern "C" fn rtp_packet_unmarshal(packet: &[u8]) -> RtpPacketRead
    ensures { result ≡ packet_read_as (reading_heard (read_packet packet.now)) }
{
    RtpPacketRead::from(packet::unmarshal(packet))
}

#[unsafe(no_mangle)]
pub extern "C" fn rtp_packet_marshal_size(header: Header, payload: &[u8]) -> RtpLength
    ensures { result ≡ length_as (packet_size_asked header payload.now) }
{
    RtpLength::from(packet::marshal_size(header, payload))
}

#[unsafe(no_mangle)]
pub extern "C" fn rtp_packet_marshal_to(header: Header, payload: &[u8], buf: &mut [u8]) -> RtpLength
    ensures value { result ≡ length_as (written buf.old (write_packet header payload.now (length buf.old))).answer }
    ensures buf_after { buf.new ≡ (written buf.old (write_packet header payload.now (length buf.old))).buffer }
{
    RtpLength::from(packet::marshal_to(header, payload, buf))
}
