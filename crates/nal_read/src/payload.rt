// The kind of a payload.
ghost use Rattle.std.specs.Prelude.{◌≡◌, ◌<◌};
ghost use Rattle.nal_read.specs.Kind.{shape};
ghost use Rattle.nal_read.specs.Said.{shape_said};

use crate::Kind;

// Stays: numbers of the wire, under the names that the Rust gives them; of type 9 `h264_put` has its own, since neither crate uses the other.
pub const AUD_NALU_TYPE: u8 = 9;

pub const STAPA_NALU_TYPE: u8 = 24;

pub const FUA_NALU_TYPE: u8 = 28;

// RFC 6184, sections 5.3 and 5.8: the first byte of every payload, and the second of an FU-A.
//
// +---------------+   +---------------+
// |0|1|2|3|4|5|6|7|   |0|1|2|3|4|5|6|7|
// +-+-+-+-+-+-+-+-+   +-+-+-+-+-+-+-+-+
// |F|NRI|  Type   |   |S|E|R|  Type   |
// +---------------+   +---------------+
#[tactic(auto, unfolding(crate::specs::Kind::shape))]
pub fn kind_of(payload: &[u8]) -> Kind
    ensures { shape_said result ≡ shape payload.now }
{
    if payload.len() <= 1 {
        return Kind::Short;
    }
    let b0 = payload[0];
    let nalu_type = b0 % 32;
    if payload.len() <= 2 {
        if nalu_type == AUD_NALU_TYPE {
            return Kind::Plain;
        }
        return Kind::Short;
    }
    match nalu_type {
        STAPA_NALU_TYPE => Kind::Aggregate,
        FUA_NALU_TYPE => {
            let b1 = payload[1];
            Kind::Fragment {
                first: b1 / 128 % 2 == 1,
                last: b1 / 64 % 2 == 1,
                head: b0 / 32 % 4 * 32 + b1 % 32,
            }
        }
        1..=23 => Kind::Plain,
        _ => Kind::Unknown(nalu_type),
    }
}
