// A unit's body, shown where it lies.
ghost use Rattle.std.specs.Prelude.{◌≡◌};
ghost use Rattle.h264_packet.specs.Depacketize.{body_of};
ghost use Rattle.h264_packet.specs.Said.{said_shown};

use crate::Shown;

// A part of the packet, or of the gather buffer, or an empty part.
pub fn body<'a>(shown: Shown, packet: &'a [u8], gather: &'a [u8]) -> &'a [u8]
    ensures { result.now ≡ body_of (said_shown shown) packet.now gather.now }
{
    match shown {
        Shown::Nowhere => &packet[..0],
        Shown::Packet if packet.is_empty() => packet,
        Shown::Packet => &packet[1..],
        Shown::Gather(len) if len <= gather.len() => &gather[..len],
        Shown::Gather(_) => &gather[..0],
    }
}
