// Packets written into one output, one behind the other, with a table of their ends.
//
// Whoever calls has measured before: there is room for every packet.
ghost use Rattle.std.specs.Prelude.{◌≡◌, ◌++◌, ◌+◌, ◌<◌, ◌≤◌, length};
ghost use Rattle.wire.specs.Net.{be16};
ghost use Rattle.wire.specs.Part.{splice};
ghost use Rattle.wire.specs.Packets.{Room, put, put_all};
ghost use Rattle.h264_put.specs.Groups.{stap_a, fragment, fragments_of, unit_for, packets_of};
ghost use Rattle.h264_put.specs.Step.{sink_at};
ghost use Rattle.h264_put.specs.Outcomes.{unit_outcome};

use crate::outcome::UnitOutcome;

// How far output and table are written.
#[derive(Clone, Copy)]
pub struct Place {
    // bytes of the output
    pub at: usize,
    // places of the table: packets
    pub n: usize,
}

// A packet as it is.
// Stays: output and table of ends are two slices of the caller's, as the paper has them; each of the three writes its own head, and asks for room for its own packet.
fn put_plain(packet: &[u8], out: &mut [u8], ends: &mut [usize], to: Place) -> Place
    requires { (to.at + length packet.now ≤ length out.old) × (to.n < length ends.old) }
    ensures { sink_at out.new ends.new result ≡
        put (sink_at out.old ends.old to) packet.now }
{
    let at = to.at;
    let n = to.n;
    wire::copy_at(packet, out, at);
    let end = at + packet.len();
    ends[n] = end;
    Place { at: end, n: n + 1 }
}

// A parameter set behind its length.
fn put_set(set: &[u8], out: &mut [u8], at: usize)
    requires { (length set.now < 65536) × (at + (2 + length set.now) ≤ length out.old) }
    ensures { out.new ≡ splice out.old at (be16 (length set.now) ++ set.now) }
{
    wire::put_u16(out, at, set.len() as u16);
    wire::copy_at(set, out, at + 2);
}

// Both parameter sets in one STAP-A.
//
//  0                   1                   2                   3
//  0 1 2 3 4 5 6 7 8 9 0 1 2 3 4 5 6 7 8 9 0 1 2 3 4 5 6 7 8 9 0 1
// +-+-+-+-+-+-+-+-+-+-+-+-+-+-+-+-+-+-+-+-+-+-+-+-+-+-+-+-+-+-+-+-+
// |STAP-A NAL HDR |         NALU 1 Size           | NALU 1 HDR    |
// +-+-+-+-+-+-+-+-+-+-+-+-+-+-+-+-+-+-+-+-+-+-+-+-+-+-+-+-+-+-+-+-+
// |                         NALU 1 Data                           |
// :                                                               :
// +               +-+-+-+-+-+-+-+-+-+-+-+-+-+-+-+-+-+-+-+-+-+-+-+-+
// |               | NALU 2 Size                   | NALU 2 HDR    |
// +-+-+-+-+-+-+-+-+-+-+-+-+-+-+-+-+-+-+-+-+-+-+-+-+-+-+-+-+-+-+-+-+
// |                         NALU 2 Data                           |
// :                                                               :
pub fn put_pair(sps: &[u8], pps: &[u8], out: &mut [u8], ends: &mut [usize], to: Place) -> Place
    requires sps_len_bound { (length sps.now ≤ 1024) × (length pps.now ≤ 1024) }
    requires pps_in_bounds { (to.at + (5 + length sps.now + length pps.now) ≤ length out.old) × (to.n < length ends.old) }
    ensures { sink_at out.new ends.new result ≡
        put (sink_at out.old ends.old to) (stap_a sps.now pps.now) }
{
    let at = to.at;
    let n = to.n;
    out[at] = 0x78;
    put_set(sps, out, at + 1);
    put_set(pps, out, at + 3 + sps.len());
    let end = at + 5 + sps.len() + pps.len();
    ends[n] = end;
    Place { at: end, n: n + 1 }
}

// One FU-A: a part of the unit whose first byte is head. The start bit is 128, the end bit 64.
//
// +---------------+---------------+
// |0|1|2|3|4|5|6|7|0|1|2|3|4|5|6|7|
// +-+-+-+-+-+-+-+-+-+-+-+-+-+-+-+-+
// |F|NRI|  Type   |S|E|R|  Type   |
// +---------------+---------------+
fn put_fragment(
    head: u8,
    bits: u8,
    part: &[u8],
    out: &mut [u8],
    ends: &mut [usize],
    to: Place,
) -> Place
    requires { (bits ≤ 128) × (to.at + (2 + length part.now) ≤ length out.old) × (to.n < length ends.old) }
    ensures { sink_at out.new ends.new result ≡
        put (sink_at out.old ends.old to) (fragment head bits part.now) }
{
    let at = to.at;
    let n = to.n;
    out[at] = head / 32 % 4 * 32 + 28;
    out[at + 1] = bits + head % 32;
    wire::copy_at(part, out, at + 2);
    let end = at + 2 + part.len();
    ends[n] = end;
    Place { at: end, n: n + 1 }
}

// A unit in fragments of size bytes, the last of what is left. The unit's first byte is in none of them.
// Stays: a loop over what is left, since the last fragment has its end bit, and no other.
fn put_fragments(unit: &[u8], size: usize, out: &mut [u8], ends: &mut [usize], to: Place) -> Place
    requires { (0 < size) × (size + 1 < length unit.now) ×
        Room (sink_at out.old ends.old to) (packets_of (fragments_of size unit.now)) }
    ensures { sink_at out.new ends.new result ≡
        put_all (sink_at out.old ends.old to) (packets_of (fragments_of size unit.now)) }
{
    let head = unit[0];
    let (part, mut rest) = unit[1..].split_at(size);
    let mut p = put_fragment(head, 128, part, out, ends, to);
    while size < rest.len() {
        let (part, behind) = rest.split_at(size);
        p = put_fragment(head, 0, part, out, ends, p);
        rest = behind;
    }
    put_fragment(head, 64, rest, out, ends, p)
}

// What putting a unit leaves.
#[derive(Clone, Copy)]
pub struct PutUnit {
    // how far output and table are written
    pub place: Place,
    // Sent or DroppedForMtu
    pub outcome: UnitOutcome,
}

// A unit alone where it fits, else in fragments; under mtu 3 not at all.
pub fn put_unit(mtu: usize, unit: &[u8], out: &mut [u8], ends: &mut [usize], to: Place) -> PutUnit
    requires { Room (sink_at out.old ends.old to) (packets_of (unit_for mtu unit.now)) }
    ensures place_after { sink_at out.new ends.new result.place ≡
        put_all (sink_at out.old ends.old to) (packets_of (unit_for mtu unit.now)) }
    ensures outcome_value { result.outcome ≡ unit_outcome mtu unit.now }
{
    if unit.len() <= mtu {
        return PutUnit {
            place: put_plain(unit, out, ends, to),
            outcome: UnitOutcome::Sent,
        };
    }
    if mtu < 3 {
        return PutUnit {
            place: to,
            outcome: UnitOutcome::DroppedForMtu,
        };
    }
    PutUnit {
        place: put_fragments(unit, mtu - 2, out, ends, to),
        outcome: UnitOutcome::Sent,
    }
}
