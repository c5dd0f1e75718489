// The units that a packet hands out, and those of them that are marked.
ghost use Rattle.std.specs.Prelude.{◌≤◌, length};

use nal_read::Kind;
use packet::Payload;

#[derive(Clone, Copy, Default)]
pub struct Units {
    pub count: usize,
    // those whose top bit is set, by which a relay marks what it saw damaged
    pub marked: usize,
}

// 1 for a unit that is marked. An empty one has no bit.
fn mark_of(unit: &[u8]) -> usize
    ensures { result ≤ 1 }
{
    match unit.first() {
        Some(b) => usize::from(*b / 128),
        None => 0,
    }
}

// How many units of a STAP-A are marked. The top bit of its own first byte is none of theirs, and a size with no byte behind it is that of
// an empty unit.
// Stays: a loop, as in `nal::measure`: an iterator of our own would hold these same lines.
fn marked_in(payload: &[u8]) -> usize {
    let mut at = 1;
    let mut marked = 0;
    while at + 2 < payload.len() {
        let size = usize::from(wire::get_u16(payload, at));
        marked += mark_of(stream::part(payload, at + 2, size));
        at += 2 + size;
    }
    marked
}

fn aggregated(payload: &[u8]) -> Units
    requires { 1 ≤ length payload.now }
{
    match nal_read::measure(payload) {
        Ok(units) => Units {
            count: units.count,
            marked: marked_in(payload),
        },
        Err(_) => Units::default(),
    }
}

// What an accepted packet handed out as these bytes: the units of a STAP-A, or one unit behind a start code of 4 bytes.
#[tactic(auto, using(nal_read::proofs::Shapes::aggregate_long))]
pub fn units_of<'a>(packet: &'a [u8], handed: &'a [u8]) -> Units {
    if handed.is_empty() {
        return Units::default();
    }
    let read = packet::unmarshal(packet).read;
    let Ok(Payload { at, len }) = read else {
        return Units::default();
    };
    let payload = stream::part(packet, at, len);
    let kind = nal_read::kind_of(payload);
    let Kind::Aggregate = kind else {
        return Units {
            count: 1,
            marked: mark_of(stream::part(handed, 4, 1)),
        };
    };
    aggregated(payload)
}
