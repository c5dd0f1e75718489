// What both senders do with a frame: judge it, measure it, send it. The sets that wait then are said by where they lie.
ghost use Rattle.std.specs.Prelude.{◌≡◌, ◌||◌, ◌≤◌, ltb, length};
ghost use Rattle.annexb.specs.Units.{no_units};
ghost use Rattle.h264.specs.Payload.{held_in, outside_by, sending_of};
ghost use Rattle.h264.specs.Step.{Delivers};

use crate::send::Written;
use annexb::first_unit;
use error::Error;
use h264_measure::{Measure, measure_frame};
use h264_put::{Drops, Place};
use h264_walk::{Lies, Waiting, walk};

// What sending a frame leaves.
#[derive(Clone, Copy)]
pub(crate) struct Delivered {
    // the sets that wait then, by where they lie
    pub waiting: Waiting,
    pub written: Written,
}

// Sends a frame, where the first sps_len bytes of sps and the first pps_len of pps are the sets that wait.
// Stays: a set is a buffer and a length, as in the records that C sees, and only here is it judged whether the buffer has so many bytes.
pub(crate) fn deliver<'a>(
    sps: &'a [u8],
    sps_len: usize,
    pps: &'a [u8],
    pps_len: usize,
    frame: &'a [u8],
    mtu: usize,
    out: &mut [u8],
    ends: &mut [usize],
) -> Result<Delivered, Error>
    requires { (1024 ≤ length sps.now) × (1024 ≤ length pps.now) }
    ensures { Delivers sps.now pps.now frame.now (held_in sps.now sps_len pps.now pps_len)
        (sending_of (outside_by sps_len pps_len mtu frame.now) (held_in sps.now sps_len pps.now pps_len) mtu
        frame.now out.old ends.old) result out.new ends.new }
{
    if is_outside(sps_len, pps_len, mtu, frame.len()) {
        return Err(Error::OutsideDomain);
    }
    let before = Waiting {
        sps: Lies::saved(sps_len),
        pps: Lies::saved(pps_len),
    };
    if is_nothing(mtu, frame.len()) {
        return Ok(Delivered {
            waiting: before,
            written: written(Place { at: 0, n: 0 }, Drops { units: 0, pairs: 0 }),
        });
    }
    let first = first_unit(frame);
    let m = measure_frame(frame, first, mtu, sps_len, pps_len);
    if m.long {
        return Err(Error::OverLimits);
    }
    if is_too_small(m, out.len(), ends.len()) {
        return Err(Error::ErrBufferTooSmall);
    }
    let sent = walk(before, sps, pps, frame, first, mtu, out, ends);
    Ok(Delivered {
        waiting: sent.waiting,
        written: written(sent.place, sent.drops),
    })
}

// What was written up to a place, and what was dropped.
fn written(place: Place, drops: Drops) -> Written
    ensures { result ≡ record { packets = place.n; bytes = place.at; units_dropped = drops.units; pairs_dropped = drops.pairs } }
{
    Written {
        packets: place.n,
        bytes: place.at,
        units_dropped: drops.units,
        pairs_dropped: drops.pairs,
    }
}

// The lengths of the sets that wait, the mtu or the frame is outside the domain.
fn is_outside(sps: usize, pps: usize, mtu: usize, frame: usize) -> bool
    ensures { result ≡ (ltb 1024 sps || (ltb 1024 pps || (ltb 65535 mtu || ltb 16777216 frame))) }
{
    1024 < sps || 1024 < pps || 65535 < mtu || 16777216 < frame
}

// No unit of the frame counts.
fn is_nothing(mtu: usize, frame: usize) -> bool
    ensures { result ≡ no_units mtu frame }
{
    frame == 0 || mtu == 0
}

// What is measured does not fit output and table.
fn is_too_small(m: Measure, out: usize, ends: usize) -> bool
    ensures { result ≡ (ltb out m.bytes || ltb ends m.packets) }
{
    out < m.bytes || ends < m.packets
}
