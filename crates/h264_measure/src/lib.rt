// How much the packets of a frame take, from lengths alone.
//
// A refusal changes nothing, and a set that is too long may come behind units that can be sent: so all is measured before
// a byte is written. Only proved code calls this crate, so its functions may ask that a frame is within the limits.
#![tactic(auto)]

ghost use Rattle.std.specs.Prelude.{◌≡◌, List, ℕ, ◌+◌, ◌*◌, ◌≤◌, ◌<◌, length, drop};
ghost use Rattle.h264_put.specs.Groups.{Saved, fate_of, unit_for, packets_of};
ghost use Rattle.annexb.specs.Units.{units, pieces};
ghost use Rattle.h264_measure.specs.Measured.{size_of, Lengths, Small, Grown, measured, measured_all, nothing_yet};

use annexb::unit_at;
use h264_put::{Fate, fate_of};

#[derive(Clone, Copy)]
pub struct Size {
    pub packets: usize,
    pub bytes: usize,
}

// What a unit of len bytes takes, alone or in fragments.
fn unit_size(len: usize, mtu: usize) -> Size
    requires { (0 < len) × (len ≤ 16777216) }
    ensures { (result.packets ≤ len) × (result.bytes ≤ 3 * len) ×
        ((u : List ℕ) → length u ≡ len → result ≡ size_of (packets_of (unit_for mtu u))) }
{
    if len <= mtu {
        return Size {
            packets: 1,
            bytes: len,
        };
    }
    if mtu < 3 {
        return Size {
            packets: 0,
            bytes: 0,
        };
    }
    let fragments = parts::count(len - 1, mtu - 2);
    Size {
        packets: fragments,
        bytes: len - 1 + 2 * fragments,
    }
}

// What the units so far take.
#[derive(Clone, Copy)]
pub struct Measure {
    pub packets: usize,
    pub bytes: usize,
    // the lengths of the saved sets after them; 0 for none
    pub sps: usize,
    pub pps: usize,
    // whether a set of over 1,024 bytes was among them
    // Stays: what follows a set that is too long is measured too, as `measured_all` defines it.
    pub long: bool,
}

// Stays: the mtu is asked to be at most 65,535 by each method: a type for it would be made once and taken apart in each sum.
impl Measure {
    // A unit of len bytes that is neither dropped nor saved.
    fn coded(self, mtu: usize, len: usize) -> Measure
        requires { Small self × (mtu ≤ 65535) × (0 < len) × (len ≤ 16777216) }
        ensures { Grown self len result ×
            ((v : Saved) (u : List ℕ) → Lengths v self.sps self.pps → length u ≡ len → fate_of u ≡ Fate.Coded → result ≡ measured self mtu v u) }
    {
        let unit = unit_size(len, mtu);
        let packets = self.packets + unit.packets;
        let bytes = self.bytes + unit.bytes;
        if self.sps == 0 || self.pps == 0 {
            return Measure {
                packets,
                bytes,
                ..self
            };
        }
        let behind = Measure {
            packets,
            bytes,
            sps: 0,
            pps: 0,
            ..self
        };
        let pair = 5 + self.sps + self.pps;
        if mtu < pair {
            return behind;
        }
        Measure {
            packets: packets + 1,
            bytes: bytes + pair,
            ..behind
        }
    }

    // A unit more.
    fn add(self, mtu: usize, unit: &[u8]) -> Measure
        requires { Small self × (mtu ≤ 65535) × (length unit.now ≤ 16777216) }
        ensures { Grown self (length unit.now) result ×
            ((v : Saved) → Lengths v self.sps self.pps → result ≡ measured self mtu v unit.now) }
    {
        match fate_of(unit) {
            Fate::Empty | Fate::Dropped => self,
            Fate::Sps => Measure {
                sps: unit.len(),
                long: self.long || 1024 < unit.len(),
                ..self
            },
            Fate::Pps => Measure {
                pps: unit.len(),
                long: self.long || 1024 < unit.len(),
                ..self
            },
            Fate::Coded => self.coded(mtu, unit.len()),
        }
    }
}

// What all units of a frame take, the first of which starts at first, where sets of these lengths are saved.
pub fn measure_frame(frame: &[u8], first: usize, mtu: usize, sps: usize, pps: usize) -> Measure
    requires frame_len_bound { (length frame.now ≤ 16777216) × (mtu ≤ 65535) × (sps ≤ 1024) × (pps ≤ 1024) }
    requires first_in_bounds { (first ≤ length frame.now) × (pieces (drop first frame.now) ≡ units frame.now) }
    ensures { (v : Saved) → Lengths v sps pps → result ≡ measured_all (nothing_yet sps pps) mtu v (units frame.now) }
{
    let mut start = first;
    let mut m = Measure {
        packets: 0,
        bytes: 0,
        sps,
        pps,
        long: false,
    };
    // Stays: a loop, since where the next unit starts is found with the end of this one, in one search.
    loop {
        let piece = unit_at(frame, start);
        let end = piece.end;
        m = m.add(mtu, &frame[start..end]);
        let Some(next) = piece.next else {
            break m;
        };
        start = next;
    }
}
