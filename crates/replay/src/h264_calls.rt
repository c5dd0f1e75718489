// H.264: the start code search, frames sent, payloads read, the partition tests.
use crate::{equal, rows};
use h264::{H264Payloader, LentPayloader, ParameterSet, Sent, next_ind};
use h264_packet::{Depacketized, H264Packet, body, is_partition_head, is_partition_tail};

pub fn next<'a>(q: &'a [u8], a: &'a [u8]) -> bool {
    let search = next_ind(rows::field(q, 1), rows::number(q, 2));
    match search {
        Ok(Some(code)) => equal::told(a, 0, code.at, code.len, 0),
        Ok(None) => equal::told(a, equal::NOTHING, 0, 0, 0),
        Err(e) => equal::refused(a, e),
    }
}

// Asked of both senders, the one that goes by value and the one whose sets lie in lent buffers: both must be as the row has it.
pub fn send<'a>(q: &'a [u8], a: &'a [u8]) -> bool {
    let before = sender(q);
    sent_by(
        q,
        a,
        None,
        |mtu, frame, out, ends| before.payload(mtu, frame, out, ends),
    ) && sent_by(q, a, Some(before), |mtu, frame, out, ends| {
        payload_lent(before, mtu, frame, out, ends)
    })
}

// With what stood in lent buffers before.
fn sent_by<'a, F: FnOnce(usize, &[u8], &mut [u8], &mut [usize]) -> Sent<H264Payloader>>(
    q: &'a [u8],
    a: &'a [u8],
    lent: Option<H264Payloader>,
    payload: F,
) -> bool
    requires { F.IsAlwaysCallable payload }
{
    let mut out = [rows::FILL; 2048];
    let mut ends = [equal::NO_END; 2048];
    let places = rows::room(rows::number(q, 3));
    let packets = rows::room(rows::number(q, 4));
    let r = payload(
        rows::number(q, 1),
        rows::field(q, 2),
        &mut out[0..places],
        &mut ends[0..packets],
    );
    sent(a, r, lent)
        && equal::places(rows::field(a, 4), rows::FILL, &out)
        && equal::ends(rows::field(a, 5), &ends)
}

fn sender(q: &[u8]) -> H264Payloader {
    H264Payloader {
        sps: set(rows::number(q, 5), rows::field(q, 6)),
        pps: set(rows::number(q, 7), rows::field(q, 8)),
    }
}

// Stays: some rows ask of a length that the bytes do not have.
fn set(len: usize, front: &[u8]) -> ParameterSet {
    let mut bytes = [rows::FILL; 1024];
    rows::lay(front, &mut bytes);
    ParameterSet { bytes, len }
}

// What the sender whose sets lie in lent buffers leaves, in the form of the one that goes by value.
fn payload_lent(
    sender: H264Payloader,
    mtu: usize,
    frame: &[u8],
    out: &mut [u8],
    ends: &mut [usize],
) -> Sent<H264Payloader> {
    let mut sps = sender.sps;
    let mut pps = sender.pps;
    let held = LentPayloader {
        sps_len: sps.len,
        pps_len: pps.len,
    };
    let r = held.payload(&mut sps.bytes, &mut pps.bytes, mtu, frame, out, ends);
    let after = r.sender;
    let answer = r.answer;
    sps.len = after.sps_len;
    pps.len = after.pps_len;
    Sent {
        sender: H264Payloader { sps, pps },
        answer,
    }
}

fn sent(a: &[u8], r: Sent<H264Payloader>, lent: Option<H264Payloader>) -> bool {
    let after = r.sender;
    let answer = r.answer;
    let same = match answer {
        Ok(written) => {
            equal::told(a, 0, written.packets, written.bytes, written.units_dropped)
                && equal::number(a, 12, written.pairs_dropped)
        }
        Err(e) => equal::refused(a, e) && equal::number(a, 12, 0usize),
    };
    same && same_set(rows::rest(a, 6), after.sps, lent.map(|before| before.sps))
        && same_set(rows::rest(a, 9), after.pps, lent.map(|before| before.pps))
}

// Behind a set must stand what the row says, and in a lent buffer what stood there before.
fn same_set(a: &[u8], set: ParameterSet, lent: Option<ParameterSet>) -> bool {
    let fill = rows::byte(a, 2);
    let mut places = lent.map_or([fill; 1024], |before| before.bytes);
    rows::lay(rows::field(a, 1), &mut places);
    equal::number(a, 0, set.len) && places == set.bytes
}

// The output, all of the gather buffer, and the body that is shown.
pub fn read<'a>(q: &'a [u8], a: &'a [u8]) -> bool {
    let mut gather = [rows::FILL; 2048];
    let mut out = [rows::FILL; 2048];
    let payload = rows::field(q, 1);
    let held = rows::room(rows::number(q, 2));
    let places = rows::room(rows::number(q, 3));
    rows::lay(rows::field(q, 6), &mut gather);
    let r = reader(q).depacketize(payload, &mut gather[0..held], &mut out[0..places]);
    let shown = r.shown;
    heard(a, r)
        && equal::places(rows::field(a, 4), rows::FILL, &out)
        && equal::places(rows::field(a, 5), rows::FILL, &gather)
        && body(shown, payload, &gather) == rows::field(a, 6)
}

fn reader(q: &[u8]) -> H264Packet {
    H264Packet {
        is_avc: rows::flag(q, 4),
        gathered: rows::number(q, 5),
    }
}

fn heard(a: &[u8], r: Depacketized) -> bool {
    let after = r.packet;
    let answer = r.answer;
    let same = match answer {
        Ok(count) => equal::told(a, 0, count, 0, 0),
        Err(e) => equal::refused(a, e),
    };
    same && equal::number(a, 7, after.is_avc) && equal::number(a, 8, after.gathered)
}

pub fn head<'a>(q: &'a [u8], a: &'a [u8]) -> bool {
    equal::head(a, is_partition_head(rows::field(q, 1)))
}

pub fn tail<'a>(q: &'a [u8], a: &'a [u8]) -> bool {
    equal::tail(a, is_partition_tail(rows::flag(q, 1)))
}
