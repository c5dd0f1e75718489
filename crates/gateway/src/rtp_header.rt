// The header: read, sized, written.
ghost use Rattle.std.specs.Prelude.{◌≡◌, length};
ghost use Rattle.error.specs.Said.{said};
ghost use Rattle.header.specs.Fields.{blank};
ghost use Rattle.header.specs.Read.{read_header};
ghost use Rattle.header.specs.Size.{size_asked, length_asked};
ghost use Rattle.header.specs.Write.{write_header};
ghost use Rattle.header.specs.Said.{heard, reading_heard, written};
ghost use Rattle.gateway.specs.HeaderAnswers.{header_read_as, length_as};

use crate::refused::{Refused, answered};
use error::Error;
use header::{Header, Unmarshalled};

// A header that was read.
#[repr(C)]
#[derive(Clone, Copy)]
pub struct RtpHeaderRead {
    pub refused: Refused,
    // the payload's place in the packet; 0 beside a refusal
    pub at: usize,
    // all zeros beside a refusal
    pub header: Header,
}

// A number of bytes.
#[repr(C)]
#[derive(Clone, Copy)]
pub struct RtpLength {
    pub refused: Refused,
    // 0 beside a refusal
    pub bytes: usize,
}

impl From<Unmarshalled> for RtpHeaderRead {
    ghost from_gives = { λ answer r. r ≡ header_read_as (heard answer) };

    fn from(answer: Unmarshalled) -> RtpHeaderRead {
        let read = answer.read;
        let header = answer.header;
        match read {
            Ok(at) => RtpHeaderRead {
                refused: answered(),
                at,
                header,
            },
            Err(e) => RtpHeaderRead {
                refused: Refused::from(e),
                at: 0,
                header,
            },
        }
    }
}

impl From<Result<usize, Error>> for RtpLength {
    ghost from_gives = { λ answer r. r ≡ length_as (said answer) };

    fn from(answer: Result<usize, Error>) -> RtpLength {
        match answer {
            Ok(bytes) => RtpLength {
                refused: answered(),
                bytes,
            },
            Err(e) => RtpLength {
                refused: Refused::from(e),
                bytes: 0,
            },
        }
    }
}

// All zeros.
#[unsafe(no_mangle)]
pub extern "C" fn rtp_header_default() -> Header
    ensures { result ≡ blank }
{
    Header::default()
}

#[unsafe(no_mangle)]
pub extern "C" fn rtp_header_unmarshal(packet: &[u8]) -> RtpHeaderRead
    ensures { result ≡ header_read_as (reading_heard (read_header packet.now)) }
{
    RtpHeaderRead::from(Header::unmarshal(packet))
}

#[unsafe(no_mangle)]
pub extern "C" fn rtp_header_marshal_size(header: Header) -> RtpLength
    ensures { result ≡ length_as (size_asked header) }
{
    RtpLength::from(header.marshal_size())
}

#[unsafe(no_mangle)]
pub extern "C" fn rtp_header_marshal_to(header: Header, buf: &mut [u8]) -> RtpLength
    ensures value { result ≡ length_as (written buf.old (write_header header (length buf.old))).answer }
    ensures buf_after { buf.new ≡ (written buf.old (write_header header (length buf.old))).buffer }
{
    RtpLength::from(header.marshal_to(buf))
}

#[unsafe(no_mangle)]
pub extern "C" fn rtp_header_get_extension_payload_len(header: Header) -> RtpLength
    ensures { result ≡ length_as (length_asked header) }
{
    RtpLength::from(header.get_extension_payload_len())
}
