// One unit sent: dropped, saved, or written behind the pair that waits.
ghost use Rattle.std.specs.Prelude.{◌≡◌};
ghost use Rattle.wire.specs.Packets.{Room, put_all};
ghost use Rattle.h264_put.specs.Groups.{keep, pair_for, groups_for, packets_of};
ghost use Rattle.h264_put.specs.Outcomes.{pair_outcome, without_pair, outcome_for};
ghost use Rattle.h264_put.specs.Step.{sink_at};
ghost use Rattle.h264_walk.specs.Waiting.{saved_at, Waits};
ghost use Rattle.h264_walk.specs.Step.{unit_in, Ready, Done};

use crate::places::{Lies, Waiting};
use h264_put::{Fate, Outcome, PairOutcome, Place, UnitOutcome, fate_of, put_pair, put_unit};

// What the pair that waits leaves.
#[derive(Clone, Copy)]
struct PutPair {
    // how far output and table are written
    place: Place,
    // what became of it
    outcome: PairOutcome,
}

// What the step that sends one unit leaves.
#[derive(Clone, Copy)]
pub(crate) struct Emitted {
    // the sets that wait then
    pub waiting: Waiting,
    // how far output and table are written
    pub place: Place,
    // what became of the unit, and of the pair that may stand before it
    pub outcome: Outcome,
}

// The pair in a STAP-A, where both sets wait and that fits the mtu.
// Stays: sets and frame by themselves, here and in all that calls it: a struct of them would be made once, and taken apart only here.
fn put_waiting<'a>(
    waiting: Waiting,
    sps: &'a [u8],
    pps: &'a [u8],
    frame: &'a [u8],
    mtu: usize,
    out: &mut [u8],
    ends: &mut [usize],
    to: Place,
) -> PutPair
    requires { Waits sps.now pps.now frame.now waiting ×
        Room (sink_at out.old ends.old to) (packets_of (pair_for mtu (saved_at sps.now pps.now frame.now waiting))) }
    ensures place_after { sink_at out.new ends.new result.place ≡
        put_all (sink_at out.old ends.old to)
        (packets_of (pair_for mtu (saved_at sps.now pps.now frame.now waiting))) }
    ensures outcome_value { result.outcome ≡ pair_outcome mtu (saved_at sps.now pps.now frame.now waiting) }
{
    let of_sps = waiting.sps;
    let of_pps = waiting.pps;
    if of_sps.len == 0 || of_pps.len == 0 {
        return PutPair {
            place: to,
            outcome: PairOutcome::NotDue,
        };
    }
    if mtu < 5 + of_sps.len + of_pps.len {
        return PutPair {
            place: to,
            outcome: PairOutcome::DroppedForMtu,
        };
    }
    PutPair {
        place: put_pair(
            of_sps.bytes(sps, frame),
            of_pps.bytes(pps, frame),
            out,
            ends,
            to,
        ),
        outcome: PairOutcome::Sent,
    }
}

// A step that sends nothing: no pair is due.
fn unsent(waiting: Waiting, place: Place, unit: UnitOutcome) -> Emitted
    ensures { (result.waiting ≡ waiting) × (result.place ≡ place) × (result.outcome ≡ without_pair unit) }
{
    Emitted {
        waiting,
        place,
        outcome: Outcome {
            unit,
            pair: PairOutcome::NotDue,
        },
    }
}

// Sends the unit of the frame from start to end: drops or saves it, or writes it behind the pair that waits.
pub(crate) fn emit<'a>(
    waiting: Waiting,
    sps: &'a [u8],
    pps: &'a [u8],
    frame: &'a [u8],
    start: usize,
    end: usize,
    mtu: usize,
    out: &mut [u8],
    ends: &mut [usize],
    to: Place,
) -> Emitted
    requires { Ready sps.now pps.now frame.now waiting start end mtu (sink_at out.old ends.old to) }
    ensures done { Done sps.now pps.now frame.now
        (keep (saved_at sps.now pps.now frame.now waiting) (unit_in frame.now start end))
        (groups_for mtu (saved_at sps.now pps.now frame.now waiting) (unit_in frame.now start end))
        (sink_at out.old ends.old to) result.waiting (sink_at out.new ends.new result.place) }
    ensures outcome_value { result.outcome ≡
        outcome_for mtu (saved_at sps.now pps.now frame.now waiting) (unit_in frame.now start end) }
{
    let unit = &frame[start..end];
    match fate_of(unit) {
        Fate::Empty => unsent(waiting, to, UnitOutcome::Empty),
        Fate::Dropped => unsent(waiting, to, UnitOutcome::DroppedByType),
        Fate::Sps => {
            let sps = Lies::unit(start, end);
            unsent(Waiting { sps, ..waiting }, to, UnitOutcome::Saved)
        }
        Fate::Pps => {
            let pps = Lies::unit(start, end);
            unsent(Waiting { pps, ..waiting }, to, UnitOutcome::Saved)
        }
        Fate::Coded => {
            let pair = put_waiting(waiting, sps, pps, frame, mtu, out, ends, to);
            let put = put_unit(mtu, unit, out, ends, pair.place);
            Emitted {
                waiting: waiting.forget(),
                place: put.place,
                outcome: Outcome {
                    unit: put.outcome,
                    pair: pair.outcome,
                },
            }
        }
    }
}
