// What is to be done with a unit, by its first byte.
//
// +---------------+
// |0|1|2|3|4|5|6|7|
// +-+-+-+-+-+-+-+-+
// |F|NRI|  Type   |
// +---------------+
ghost use Rattle.std.specs.Prelude.{◌≡◌};
ghost use Rattle.h264_put.specs.Groups.{fate_of};

// Stays: numbers of the wire, under the names that the Rust gives them.
pub const SPS_NALU_TYPE: u8 = 7;

pub const PPS_NALU_TYPE: u8 = 8;

pub const AUD_NALU_TYPE: u8 = 9;

pub const FILLER_NALU_TYPE: u8 = 12;

#[derive(Clone, Copy)]
pub enum Fate {
    // no byte
    Empty,
    // an access unit delimiter or filler data: not sent
    Dropped,
    // a sequence parameter set: saved
    Sps,
    // a picture parameter set: saved
    Pps,
    // any other: sent
    Coded,
}

pub fn fate_of(unit: &[u8]) -> Fate
    ensures { result ≡ fate_of unit.now }
{
    if unit.is_empty() {
        return Fate::Empty;
    }
    match unit[0] % 32 {
        AUD_NALU_TYPE | FILLER_NALU_TYPE => Fate::Dropped,
        SPS_NALU_TYPE => Fate::Sps,
        PPS_NALU_TYPE => Fate::Pps,
        _ => Fate::Coded,
    }
}
