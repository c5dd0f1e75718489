// All units of a frame sent.
ghost use Rattle.std.specs.Prelude.{◌≡◌, false, ◌≤◌, length, drop};
ghost use Rattle.wire.specs.Packets.{Room};
ghost use Rattle.annexb.specs.Units.{units, pieces};
ghost use Rattle.h264_put.specs.Groups.{keep_all, groups_of, packets_of};
ghost use Rattle.h264_put.specs.Outcomes.{outcomes_of, drops_in};
ghost use Rattle.h264_put.specs.Step.{sink_at, empty_sink, over_limit};
ghost use Rattle.h264_walk.specs.Waiting.{saved_at, Waits};
ghost use Rattle.h264_walk.specs.Step.{Done};

use crate::places::Waiting;
use crate::step::emit;
use annexb::unit_at;
use h264_put::{Drops, Place};

// What the units of a frame leave.
#[derive(Clone, Copy)]
pub struct Walked {
    // the sets that wait then
    pub waiting: Waiting,
    // how far output and table are written
    pub place: Place,
    // what was dropped of them for the mtu
    pub drops: Drops,
}

// Sends all units of a frame, the first of which starts at first, and counts what is dropped for the mtu.
pub fn walk<'a>(
    waiting: Waiting,
    sps: &'a [u8],
    pps: &'a [u8],
    frame: &'a [u8],
    first: usize,
    mtu: usize,
    out: &mut [u8],
    ends: &mut [usize],
) -> Walked
    requires waits { Waits sps.now pps.now frame.now waiting × (over_limit (units frame.now) ≡ false) × (length frame.now ≤ 16777216) }
    requires first_in_bounds { (first ≤ length frame.now) × (pieces (drop first frame.now) ≡ units frame.now) }
    requires room { Room (empty_sink out.old ends.old)
        (packets_of (groups_of mtu (saved_at sps.now pps.now frame.now waiting) (units frame.now))) }
    ensures done { Done sps.now pps.now frame.now
        (keep_all (saved_at sps.now pps.now frame.now waiting) (units frame.now))
        (groups_of mtu (saved_at sps.now pps.now frame.now waiting) (units frame.now))
        (empty_sink out.old ends.old) result.waiting (sink_at out.new ends.new result.place) }
    ensures drops_value { result.drops ≡
        drops_in (outcomes_of mtu (saved_at sps.now pps.now frame.now waiting) (units frame.now)) }
{
    let mut start = first;
    let mut waits = waiting;
    let mut place = Place { at: 0, n: 0 };
    let mut drops = Drops { units: 0, pairs: 0 };
    // Stays: a loop, since where the next unit starts is found with the end of this one, in one search.
    loop {
        let piece = unit_at(frame, start);
        let e = emit(
            waits, sps, pps, frame, start, piece.end, mtu, out, ends, place,
        );
        waits = e.waiting;
        place = e.place;
        drops = drops.and(e.outcome);
        let Some(next) = piece.next else {
            break Walked {
                waiting: waits,
                place,
                drops,
            };
        };
        start = next;
    }
}
