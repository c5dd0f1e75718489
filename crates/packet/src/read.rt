// Reading a packet: it is judged before the arrays of its record are filled; without the padding bit, by its header alone.
ghost use Rattle.std.specs.Prelude.{◌≡◌, ◌/◌, ◌≤◌, length, get_or};
ghost use Rattle.wire.specs.Net.{bit};
ghost use Rattle.packet.specs.Read.{stripped, read_packet};
ghost use Rattle.packet.specs.Fronts.{heard_front, front_heard, lent_read};
ghost use Rattle.packet.specs.Said.{said_read, heard, reading_heard, Begins, unpadded};

use crate::{FrontRead, Payload, Unmarshalled};
use error::Error;
use header::Front;

// The header's answer as that of a packet without padding: its refusal, or all from the payload's place on.
fn unpadded(read: Result<usize, Error>, len: usize) -> Result<Payload, Error>
    requires { Begins len read }
    ensures { said_read result ≡ unpadded len read }
{
    let at = read?;
    Ok(Payload { at, len: len - at })
}

// RFC 3550, section 5.1: "The last octet of the padding contains a count of how many padding octets should be ignored, including
// itself."
fn strip(packet: &[u8], at: usize) -> Result<Payload, Error>
    requires { at ≤ length packet.now }
    ensures { said_read result ≡ stripped packet.now at }
{
    let left = packet.len() - at;
    if left == 0 {
        return Err(Error::ErrShortPacket);
    }
    let n = usize::from(packet[packet.len() - 1]);
    if left < n {
        return Err(Error::ErrShortPacket);
    }
    Ok(Payload { at, len: left - n })
}

// The record's front: all but its arrays.
pub fn unmarshal_front(packet: &[u8]) -> FrontRead
    ensures { heard_front result ≡ front_heard (reading_heard (read_packet packet.now)) }
{
    let seen = header::unmarshal_front(packet);
    let read = seen.read;
    let Ok(at) = read else {
        return FrontRead {
            read: unpadded(read, packet.len()),
            front: Front::default(),
        };
    };
    let front = seen.front;
    if !front.fixed.padding {
        return FrontRead {
            read: unpadded(read, packet.len()),
            front,
        };
    }
    let read = strip(packet, at);
    let Ok(_) = read else {
        return FrontRead {
            read,
            front: Front::default(),
        };
    };
    FrontRead { read, front }
}

// Whether the padding bit is set.
fn is_padded(packet: &[u8]) -> bool
    ensures { result ≡ bit (get_or packet.now 0 0 / 32) }
{
    if packet.len() == 0 {
        return false;
    }
    packet[0] / 32 % 2 == 1
}

// With the padding bit a packet may be refused behind its header: it is judged before an array is filled.
fn unmarshal_padded(
    packet: &[u8],
    csrc: &mut [u32; 15],
    ids: &mut [u8; 32],
    lens: &mut [u16; 32],
    bytes: &mut [u8; 1024],
) -> FrontRead
    ensures result_value { heard_front result ≡ front_heard (reading_heard (read_packet packet.now)) }
    ensures bytes_after { record { csrc = csrc.new; ids = ids.new; lens = lens.new; bytes = bytes.new }
        ≡ lent_read (record { csrc = csrc.old; ids = ids.old; lens = lens.old; bytes = bytes.old }) (read_packet packet.now) }
{
    let seen = unmarshal_front(packet);
    let read = seen.read;
    let Ok(_) = read else {
        return seen;
    };
    header::unmarshal_parts(packet, csrc, ids, lens, bytes);
    seen
}

// The front, and the record's arrays, which are lent.
// Stays: C lends each array by itself, so in all that fills them.
pub fn unmarshal_parts(
    packet: &[u8],
    csrc: &mut [u32; 15],
    ids: &mut [u8; 32],
    lens: &mut [u16; 32],
    bytes: &mut [u8; 1024],
) -> FrontRead
    ensures result_value { heard_front result ≡ front_heard (reading_heard (read_packet packet.now)) }
    ensures bytes_after { record { csrc = csrc.new; ids = ids.new; lens = lens.new; bytes = bytes.new }
        ≡ lent_read (record { csrc = csrc.old; ids = ids.old; lens = lens.old; bytes = bytes.old }) (read_packet packet.now) }
{
    if is_padded(packet) {
        return unmarshal_padded(packet, csrc, ids, lens, bytes);
    }
    let seen = header::unmarshal_parts(packet, csrc, ids, lens, bytes);
    let read = seen.read;
    let front = seen.front;
    FrontRead {
        read: unpadded(read, packet.len()),
        front,
    }
}

// Stays: as `Header::unmarshal`, over another reader and its answer.
pub fn unmarshal(packet: &[u8]) -> Unmarshalled
    ensures { heard result ≡ reading_heard (read_packet packet.now) }
{
    let mut csrc = [0u32; 15];
    let mut ids = [0u8; 32];
    let mut lens = [0u16; 32];
    let mut bytes = [0u8; 1024];
    let seen = unmarshal_parts(packet, &mut csrc, &mut ids, &mut lens, &mut bytes);
    let read = seen.read;
    let front = seen.front;
    Unmarshalled {
        read,
        header: front.with(csrc, ids, lens, bytes),
    }
}
