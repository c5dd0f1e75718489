// Reading a header: judged first, without its arrays; then these are filled.
ghost use Rattle.std.specs.Prelude.{◌≡◌, [], ◌+◌, ◌*◌, ◌≤◌, length};
ghost use Rattle.error.specs.Refusal.{refusal_of};
ghost use Rattle.error.specs.Said.{says, refused};
ghost use Rattle.wire.specs.Net.{u16_at};
ghost use Rattle.wire.specs.Part.{pad_to};
ghost use Rattle.block_read.specs.Said.{Answers, elements_read, Laid};
ghost use Rattle.header.specs.Fields.{blank};
ghost use Rattle.header.specs.Parts.{together, fixed_at, front_at, front_of, heard_front, front_heard, lent_read};
ghost use Rattle.header.specs.Read.{csrcs_at, block_of, read_extension, fixed_length, read_header};
ghost use Rattle.header.specs.Said.{heard, reading_heard};

use crate::{Fixed, Front, FrontRead, Header, Unmarshalled};
use block::Form;
use block_read::{Seen, fill_block, see_block};
use elements::Extensions;
use error::Error;

fn fixed_at(packet: &[u8]) -> Fixed
    requires { 12 ≤ length packet.now }
    ensures { result ≡ fixed_at packet.now }
{
    let b0 = packet[0];
    let b1 = packet[1];
    Fixed {
        version: b0 / 64,
        padding: b0 / 32 % 2 == 1,
        extension: b0 / 16 % 2 == 1,
        marker: b1 / 128 % 2 == 1,
        payload_type: b1 % 128,
        sequence_number: wire::get_u16(packet, 2),
        timestamp: wire::get_u32(packet, 4),
        ssrc: wire::get_u32(packet, 8),
    }
}

// The payload begins behind `cc` CSRCs and the block that was seen.
fn front_at(packet: &[u8], cc: usize, profile: u16, seen: Seen) -> FrontRead
    requires { 12 ≤ length packet.now }
    ensures { heard_front result ≡ record { answer = says seen.place; front = front_at packet.now cc profile seen.count seen.padding } }
{
    FrontRead {
        read: Ok(seen.place),
        front: Front {
            fixed: fixed_at(packet),
            csrc_count: cc,
            count: seen.count,
            extensions_padding: seen.padding,
            extension_profile: profile,
        },
    }
}

fn refused_front(e: Error) -> FrontRead
    ensures { heard_front result ≡ front_heard (reading_heard (refused (refusal_of e))) }
{
    FrontRead {
        read: Err(e),
        front: Front::default(),
    }
}

// A header whose extension begins at `at`, behind the CSRCs.
//
// RFC 3550, section 5.3.1:
//
//  0                   1                   2                   3
//  0 1 2 3 4 5 6 7 8 9 0 1 2 3 4 5 6 7 8 9 0 1 2 3 4 5 6 7 8 9 0 1
// +-+-+-+-+-+-+-+-+-+-+-+-+-+-+-+-+-+-+-+-+-+-+-+-+-+-+-+-+-+-+-+-+
// |      defined by profile       |           length              |
// +-+-+-+-+-+-+-+-+-+-+-+-+-+-+-+-+-+-+-+-+-+-+-+-+-+-+-+-+-+-+-+-+
// |                        header extension                       |
// |                             ....                              |
fn front_extended(packet: &[u8], cc: usize, at: usize) -> FrontRead
    requires { (cc ≤ 15) × (at ≡ fixed_length cc) × (at ≤ length packet.now) }
    ensures { heard_front result ≡ front_heard (reading_heard (read_extension packet.now cc at)) }
{
    if packet.len() < at + 4 {
        return refused_front(Error::ErrHeaderSizeInsufficientForExtension);
    }
    let profile = wire::get_u16(packet, at);
    let len = 4 * usize::from(wire::get_u16(packet, at + 2));
    let start = at + 4;
    if packet.len() < start + len {
        return refused_front(Error::ErrHeaderSizeInsufficientForExtension);
    }
    match see_block(packet, start, len, Form::from(profile)) {
        Ok(seen) => front_at(packet, cc, profile, seen),
        Err(e) => refused_front(e),
    }
}

// The record's front: all but its arrays.
pub fn unmarshal_front(packet: &[u8]) -> FrontRead
    ensures { heard_front result ≡ front_heard (reading_heard (read_header packet.now)) }
{
    if 65535 < packet.len() {
        return refused_front(Error::OutsideDomain);
    }
    if packet.len() < 4 {
        return refused_front(Error::ErrHeaderSizeInsufficient);
    }
    let b0 = packet[0];
    let cc = usize::from(b0 % 16);
    let at = 12 + 4 * cc;
    if packet.len() < at {
        return refused_front(Error::ErrHeaderSizeInsufficient);
    }
    if b0 / 16 % 2 == 1 {
        return front_extended(packet, cc, at);
    }
    let no_block = Seen {
        place: at,
        count: 0,
        padding: 0,
    };
    front_at(packet, cc, 0, no_block)
}

fn fill_csrcs(packet: &[u8], cc: usize, csrc: &mut [u32; 15])
    requires { (cc ≤ 15) × (fixed_length cc ≤ length packet.now) }
    ensures { csrc.new ≡ pad_to 15 (csrcs_at packet.now 12 cc) }
{
    *csrc = [0; 15];
    for i in 0..cc {
        csrc[i] = wire::get_u32(packet, 12 + 4 * i);
    }
}

// The elements of an extension that was seen at `at`, into arrays of zeros.
fn fill_extended(
    packet: &[u8],
    at: usize,
    ids: &mut [u8; 32],
    lens: &mut [u16; 32],
    bytes: &mut [u8; 1024],
)
    requires at_in_bounds { at + 4 + 4 * u16_at packet.now (at + 2) ≤ length packet.now }
    requires answers { Answers (block_of packet.now at) }
    requires laid { Laid [] ids.old lens.old bytes.old }
    ensures { Laid (elements_read (block_of packet.now at)) ids.new lens.new bytes.new }
{
    let profile = wire::get_u16(packet, at);
    let len = 4 * usize::from(wire::get_u16(packet, at + 2));
    fill_block(packet, at + 4, len, Form::from(profile), ids, lens, bytes);
}

// The front, and the record's arrays, which are lent.
// Stays: C lends each array by itself, so in all that fills them.
pub fn unmarshal_parts(
    packet: &[u8],
    csrc: &mut [u32; 15],
    ids: &mut [u8; 32],
    lens: &mut [u16; 32],
    bytes: &mut [u8; 1024],
) -> FrontRead
    ensures result_value { heard_front result ≡ front_heard (reading_heard (read_header packet.now)) }
    ensures bytes_after { record { csrc = csrc.new; ids = ids.new; lens = lens.new; bytes = bytes.new }
        ≡ lent_read (record { csrc = csrc.old; ids = ids.old; lens = lens.old; bytes = bytes.old }) (read_header packet.now) }
{
    let seen = unmarshal_front(packet);
    let read = seen.read;
    let Ok(_) = read else {
        return seen;
    };
    let cc = seen.front.csrc_count;
    fill_csrcs(packet, cc, csrc);
    *ids = [0; 32];
    *lens = [0; 32];
    *bytes = [0; 1024];
    if seen.front.count != 0 {
        fill_extended(packet, 12 + 4 * cc, ids, lens, bytes);
    }
    seen
}

// All zeros.
// Stays: by hand, since its clause says that the zeros are the front of `blank`.
impl Default for Front {
    ghost is_default = { λ front. front ≡ front_of blank };

    fn default() -> Self {
        Front {
            fixed: Fixed {
                version: 0,
                padding: false,
                extension: false,
                marker: false,
                payload_type: 0,
                sequence_number: 0,
                timestamp: 0,
                ssrc: 0,
            },
            csrc_count: 0,
            count: 0,
            extensions_padding: 0,
            extension_profile: 0,
        }
    }
}

impl Front {
    // The record with these arrays.
    // Stays: field by field, since the record that C sees has these fields by themselves.
    pub fn with(self, csrc: [u32; 15], ids: [u8; 32], lens: [u16; 32], bytes: [u8; 1024]) -> Header
        ensures { result ≡ together self.fixed self.csrc_count csrc self.extension_profile (record { count = self.count; ids = ids; lens = lens; bytes = bytes }) self.extensions_padding }
    {
        let fixed = self.fixed;
        Header {
            version: fixed.version,
            padding: fixed.padding,
            extension: fixed.extension,
            marker: fixed.marker,
            payload_type: fixed.payload_type,
            sequence_number: fixed.sequence_number,
            timestamp: fixed.timestamp,
            ssrc: fixed.ssrc,
            csrc_count: self.csrc_count,
            csrc,
            extension_profile: self.extension_profile,
            extensions: Extensions {
                count: self.count,
                ids,
                lens,
                bytes,
            },
            extensions_padding: self.extensions_padding,
        }
    }
}

// All zeros.
// Stays: by hand, since `Extensions` holds an array of 1,024 bytes, which has no Default, and the zeros are those of `blank`.
impl Default for Header {
    ghost is_default = { λ header. header ≡ blank };

    fn default() -> Self {
        Header {
            version: 0,
            padding: false,
            extension: false,
            marker: false,
            payload_type: 0,
            sequence_number: 0,
            timestamp: 0,
            ssrc: 0,
            csrc_count: 0,
            csrc: [0; 15],
            extension_profile: 0,
            extensions: Extensions::new(),
            extensions_padding: 0,
        }
    }
}

impl Header {
    pub fn unmarshal(packet: &[u8]) -> Unmarshalled
        ensures { heard result ≡ reading_heard (read_header packet.now) }
    {
        let mut csrc = [0u32; 15];
        let mut ids = [0u8; 32];
        let mut lens = [0u16; 32];
        let mut bytes = [0u8; 1024];
        let seen = unmarshal_parts(packet, &mut csrc, &mut ids, &mut lens, &mut bytes);
        let read = seen.read;
        let front = seen.front;
        Unmarshalled {
            read,
            header: front.with(csrc, ids, lens, bytes),
        }
    }
}
