// The partition tests.
ghost use Rattle.std.specs.Prelude.{◌≡◌};
ghost use Rattle.error.specs.Said.{said};
ghost use Rattle.h264_packet.specs.Depacketize.{head_test};

use error::Error;
use nal_read::FUA_NALU_TYPE;

// Stays: a number of the wire under the name that the Rust gives it.
pub const FUB_NALU_TYPE: u8 = 29;

// Whether a payload is the head of a packetized unit: FU-A and FU-B say so by their start bit.
#[tactic(auto, unfolding(crate::specs::Depacketize::head_test))]
pub fn is_partition_head(payload: &[u8]) -> Result<bool, Error>
    ensures { said result ≡ head_test payload.now }
{
    if 65535 < payload.len() {
        return Err(Error::OutsideDomain);
    }
    if payload.len() < 2 {
        return Ok(false);
    }
    let nalu_type = payload[0] % 32;
    if nalu_type == FUA_NALU_TYPE || nalu_type == FUB_NALU_TYPE {
        return Ok(payload[1] / 128 % 2 == 1);
    }
    Ok(true)
}

// The marker alone says it.
pub fn is_partition_tail(marker: bool) -> bool
    ensures { result ≡ marker }
{
    marker
}
