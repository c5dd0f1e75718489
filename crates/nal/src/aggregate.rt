// The units of an aggregation packet, read behind its header: a 16-bit size before each.
ghost use Rattle.std.specs.Prelude.{◌≡◌, ◌<◌, ◌≤◌, ◌+◌, ◌*◌, length};
ghost use Rattle.wire.specs.Part.{splice};
ghost use Rattle.nal.specs.Fed.{prefixed, lay_bytes};
ghost use Rattle.nal.specs.Said.{is_avc, Room, measure_said, measure_of, out_heard};
ghost use Rattle.nal.specs.Unpack.{right, unpack, units_in};

use crate::buffers::put_unit;
use crate::{Measured, Prefix, WrongSize};
use error::Error;

// Whether every size lies within the packet; nothing is written.
pub fn measure(sized: &[u8]) -> Result<Measured, WrongSize>
    ensures { measure_said result ≡ measure_of (unpack sized.now) }
{
    // Stays: an iterator of our own would hold these same lines, and a law of what it yields besides.
    let mut at = 0;
    let mut count = 0;
    let mut bytes = 0;
    while at < sized.len() {
        if sized.len() <= at + 1 {
            return Err(WrongSize::Lone);
        }
        let size = usize::from(wire::get_u16(sized, at));
        let from = at + 2;
        let left = sized.len() - from;
        if left < size {
            return Err(WrongSize::Past { size, left });
        }
        count += 1;
        bytes += size;
        at = from + size;
    }
    Ok(Measured { count, bytes })
}

// Writes the units that were measured, each behind its prefix.
fn put_units(sized: &[u8], prefix: Prefix, out: &mut [u8])
    requires { Room sized.now (is_avc prefix) (length out.old) }
    ensures { out.new ≡ splice out.old 0 (prefixed (is_avc prefix) (units_in (unpack sized.now))) }
{
    // Stays: as in `measure`.
    let mut at = 0;
    let mut to = 0;
    while at < sized.len() {
        let size = usize::from(wire::get_u16(sized, at));
        let from = at + 2;
        put_unit(prefix, &sized[from..from + size], out, to);
        to = to + 4 + size;
        at = from + size;
    }
}

// Hands out the units that were measured.
pub fn hand_units(
    sized: &[u8],
    units: Measured,
    prefix: Prefix,
    out: &mut [u8],
) -> Result<usize, Error>
    requires sized_len_bound { length sized.now ≤ 65535 }
    requires sized_value { measure_of (unpack sized.now) ≡ right units }
    ensures { out_heard result out.new ≡ lay_bytes out.old (prefixed (is_avc prefix) (units_in (unpack sized.now))) }
{
    let n = units.bytes + 4 * units.count;
    if out.len() < n {
        return Err(Error::ErrBufferTooSmall);
    }
    put_units(sized, prefix, out);
    Ok(n)
}
