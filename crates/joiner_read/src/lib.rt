// What the joiner needs of a packet: its source, its number, its timestamp, and where its payload is.
#![tactic(auto)]

ghost use Rattle.std.specs.Prelude.{◌≡◌};
ghost use Rattle.packet.specs.Read.{read_packet};
ghost use Rattle.joiner_read.specs.Arrive.{arrival_said, arrival_of};

use error::Error;

// The payload is `len` bytes of the packet from `at` on.
#[derive(Clone, Copy)]
pub struct Arrival {
    pub source: u32,
    pub number: u16,
    pub time: u32,
    pub at: usize,
    pub len: usize,
}

// By the packet's reader.
fn read(packet: &[u8]) -> Result<Arrival, Error>
    ensures { arrival_said result ≡ arrival_of (read_packet packet.now) }
{
    let answer = packet::unmarshal_front(packet);
    let payload = answer.read?;
    let fixed = answer.front.fixed;
    Ok(Arrival {
        source: fixed.ssrc,
        number: fixed.sequence_number,
        time: fixed.timestamp,
        at: payload.at,
        len: payload.len,
    })
}

// Of a packet without padding and extensions all that is needed stands at fixed places.
pub fn arrive(packet: &[u8]) -> Result<Arrival, Error>
    ensures { arrival_said result ≡ arrival_of (read_packet packet.now) }
{
    if packet.len() < 12 {
        return read(packet);
    }
    if 65535 < packet.len() {
        return read(packet);
    }
    let b0 = packet[0];
    if b0 / 16 % 4 != 0 {
        return read(packet);
    }
    let at = 12 + 4 * usize::from(b0 % 16);
    if packet.len() < at {
        return read(packet);
    }
    Ok(Arrival {
        source: wire::get_u32(packet, 8),
        number: wire::get_u16(packet, 2),
        time: wire::get_u32(packet, 4),
        at,
        len: packet.len() - at,
    })
}
