// Writing a packet. Everything is judged before the first byte is written.
ghost use Rattle.std.specs.Prelude.{◌≡◌, ◌++◌, ◌+◌, ◌%◌, ◌<◌, ◌≤◌, length};
ghost use Rattle.error.specs.Said.{said};
ghost use Rattle.wire.specs.Part.{splice};
ghost use Rattle.header.specs.Parts.{record_of, bare};
ghost use Rattle.header.specs.Said.{heard_written, written};
ghost use Rattle.packet.specs.Write.{padding_length, padding_octets, packet_size_asked, write_packet};

use error::Error;
use header::{Fixed, Header, Parts};
use header_write::{judge, measure, put_bare, put_header, size_of};

// How many bytes more make the length a multiple of 4: its two low bits tell.
fn get_padding(len: usize) -> usize
    ensures { ((len + result) % 4 ≡ 0) × (result < 4) }
{
    let low = len & 3;
    if low == 0 { 0 } else { 4 - low }
}

// How many bytes of padding a payload gets: with the padding bit never none.
// Stays: the bit is a bool in the record that C sees.
fn padding_len(padding: bool, len: usize) -> usize
    ensures { (result ≡ padding_length padding len) × (result ≤ 4) }
{
    if !padding {
        return 0;
    }
    let n = get_padding(len);
    if n == 0 { 4 } else { n }
}

pub fn marshal_size_parts(parts: Parts<'_>, payload: &[u8]) -> Result<usize, Error>
    ensures { said result ≡ packet_size_asked (record_of parts.entry) payload.now }
{
    let n = header::marshal_size_parts(parts)?;
    let len = payload.len();
    if 65535 < len {
        return Err(Error::OutsideDomain);
    }
    Ok(n + len + padding_len(parts.fixed.padding, len))
}

pub fn marshal_size(header: Header, payload: &[u8]) -> Result<usize, Error>
    ensures { said result ≡ packet_size_asked header payload.now }
{
    marshal_size_parts(header.parts(), payload)
}

// RFC 3550, section 5.1: "The last octet of the padding contains a count of how many padding octets should be ignored, including
// itself."
fn put_padding(rest: &mut [u8], at: usize, n: usize)
    requires n_in_bounds { at + n ≤ length rest.old }
    requires n_bound { n ≤ 4 }
    ensures { rest.new ≡ splice rest.old at (padding_octets n) }
{
    if n == 0 {
        return;
    }
    wire::fill_at(rest, at, n - 1, 0);
    rest[at + (n - 1)] = n as u8;
}

// The payload and `padding` bytes of padding: how many bytes they are.
fn put_payload(payload: &[u8], padding: usize, rest: &mut [u8]) -> usize
    requires padding_in_bounds { length payload.now + padding ≤ length rest.old }
    requires padding_bound { padding ≤ 4 }
    ensures { (result ≡ length payload.now + padding) × (rest.new ≡ splice rest.old 0 (payload.now ++ padding_octets padding)) }
{
    let len = payload.len();
    wire::copy_at(payload, rest, 0);
    put_padding(rest, len, padding);
    len + padding
}

// By the parts of the header's record: its fixed fields and its numbers by value, its arrays lent.
pub fn marshal_parts(parts: Parts<'_>, payload: &[u8], buf: &mut [u8]) -> Result<usize, Error>
    ensures { heard_written result buf.new
        ≡ written buf.old (write_packet (record_of parts.entry) payload.now (length buf.old)) }
{
    let len = measure(parts)?;
    if 65535 < payload.len() {
        return Err(Error::OutsideDomain);
    }
    let padding = padding_len(parts.fixed.padding, payload.len());
    let size = size_of(parts.csrc_count, parts.fixed.extension, len, parts.padding);
    if buf.len() < size + payload.len() + padding {
        return Err(Error::ErrBufferTooSmall);
    }
    judge(parts.fixed.extension, parts.profile, len, parts.count)?;
    let at = put_header(parts, buf, len);
    Ok(at + put_payload(payload, padding, &mut buf[at..]))
}

// With a header without CSRCs and elements.
// Stays: the limits are tested here again, since `measure` takes the arrays too, which a bare header has not.
pub fn marshal_bare(
    fixed: Fixed,
    profile: u16,
    extensions_padding: usize,
    payload: &[u8],
    buf: &mut [u8],
) -> Result<usize, Error>
    ensures { heard_written result buf.new ≡ written buf.old (write_packet (bare fixed profile extensions_padding) payload.now (length buf.old)) }
{
    if 3 < fixed.version || 127 < fixed.payload_type || 262140 < extensions_padding {
        return Err(Error::OutsideDomain);
    }
    if 65535 < payload.len() {
        return Err(Error::OutsideDomain);
    }
    let padding = padding_len(fixed.padding, payload.len());
    let size = size_of(0, fixed.extension, 0, extensions_padding);
    if buf.len() < size + payload.len() + padding {
        return Err(Error::ErrBufferTooSmall);
    }
    judge(fixed.extension, profile, 0, 0)?;
    let at = put_bare(buf, fixed, profile);
    Ok(at + put_payload(payload, padding, &mut buf[at..]))
}

pub fn marshal_to(header: Header, payload: &[u8], buf: &mut [u8]) -> Result<usize, Error>
    ensures { heard_written result buf.new ≡ written buf.old (write_packet header payload.now (length buf.old)) }
{
    marshal_parts(header.parts(), payload, buf)
}
