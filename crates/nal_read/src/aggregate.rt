// The units of a STAP-A.
ghost use Rattle.std.specs.Prelude.{◌≡◌, ◌≤◌, length, Err};
ghost use Rattle.error.specs.Said.{said};
ghost use Rattle.nal.specs.Fed.{lay_units};
ghost use Rattle.nal.specs.Said.{is_avc, measure_said, out_heard};
ghost use Rattle.nal_read.specs.Said.{measure_of};
ghost use Rattle.nal_read.specs.Unpack.{stap_said, unpack};

use error::Error;
use nal::{Measured, Prefix, WrongSize};

// A wrong size's refusal.
fn refusal(wrong: WrongSize) -> Error
    ensures { said (Err result) ≡ stap_said (measure_said (Err wrong)) }
{
    match wrong {
        WrongSize::Past { size, left } => Error::StapASizeLargerThanBuffer(size, left),
        WrongSize::Lone => Error::StapASizeCut,
    }
}

// Whether every size lies within the packet; nothing is written.
//
// RFC 6184, section 5.7.1:
//
//  0                   1                   2                   3
//  0 1 2 3 4 5 6 7 8 9 0 1 2 3 4 5 6 7 8 9 0 1 2 3 4 5 6 7 8 9 0 1
// +-+-+-+-+-+-+-+-+-+-+-+-+-+-+-+-+-+-+-+-+-+-+-+-+-+-+-+-+-+-+-+-+
// |STAP-A NAL HDR |         NALU 1 Size           | NALU 1 HDR    |
// +-+-+-+-+-+-+-+-+-+-+-+-+-+-+-+-+-+-+-+-+-+-+-+-+-+-+-+-+-+-+-+-+
pub fn measure(payload: &[u8]) -> Result<Measured, Error>
    requires { 1 ≤ length payload.now }
    ensures { said result ≡ measure_of (unpack payload.now) }
{
    nal::measure(&payload[1..]).map_err(refusal)
}

// Hands out the units of a STAP-A.
pub fn hand_stap_a(payload: &[u8], prefix: Prefix, out: &mut [u8]) -> Result<usize, Error>
    requires { (1 ≤ length payload.now) × (length payload.now ≤ 65535) }
    ensures { out_heard result out.new ≡ lay_units (is_avc prefix) out.old (unpack payload.now) }
{
    let units = measure(payload)?;
    nal::hand_units(&payload[1..], units, prefix, out)
}
