// VP8: frames sent, descriptors read, the partition tests.
use crate::{equal, rows};
use vp8::{Vp8Packet, Vp8Payloaded, Vp8Payloader, Vp8Sent, is_partition_head, is_partition_tail};

pub fn send<'a>(q: &'a [u8], a: &'a [u8]) -> bool {
    let mut out = [rows::FILL; 2048];
    let mut ends = [equal::NO_END; 2048];
    let places = rows::room(rows::number(q, 3));
    let packets = rows::room(rows::number(q, 4));
    let r = payloader(q).payload(
        rows::number(q, 1),
        rows::field(q, 2),
        &mut out[0..places],
        &mut ends[0..packets],
    );
    sent(a, r)
        && equal::places(rows::field(a, 4), rows::FILL, &out)
        && equal::ends(rows::field(a, 5), &ends)
}

fn payloader(q: &[u8]) -> Vp8Payloader {
    Vp8Payloader {
        enable_picture_id: rows::flag(q, 5),
        picture_id: rows::short(q, 6),
    }
}

fn sent(a: &[u8], r: Vp8Payloaded) -> bool {
    let next = r.payloader;
    let same = match r.answer {
        Ok(Vp8Sent { packets, bytes }) => equal::told(a, 0, packets, bytes, 0),
        Err(e) => equal::refused(a, e),
    };
    same && equal::number(a, 6, next.enable_picture_id) && equal::number(a, 7, next.picture_id)
}

pub fn read<'a>(q: &'a [u8], a: &'a [u8]) -> bool {
    let r = fields(q).depacketize(rows::field(q, 1));
    let same = match r.read {
        Ok(at) => equal::told(a, 0, at, 0, 0),
        Err(e) => equal::refused(a, e),
    };
    same && same_fields(a, r.packet)
}

fn fields(q: &[u8]) -> Vp8Packet {
    Vp8Packet {
        x: rows::byte(q, 2),
        n: rows::byte(q, 3),
        s: rows::byte(q, 4),
        pid: rows::byte(q, 5),
        i: rows::byte(q, 6),
        l: rows::byte(q, 7),
        t: rows::byte(q, 8),
        k: rows::byte(q, 9),
        picture_id: rows::short(q, 10),
        tl0_pic_idx: rows::byte(q, 11),
        tid: rows::byte(q, 12),
        y: rows::byte(q, 13),
        key_idx: rows::byte(q, 14),
    }
}

fn same_fields(a: &[u8], p: Vp8Packet) -> bool {
    equal::number(a, 4, p.x)
        && equal::number(a, 5, p.n)
        && equal::number(a, 6, p.s)
        && equal::number(a, 7, p.pid)
        && equal::number(a, 8, p.i)
        && equal::number(a, 9, p.l)
        && equal::number(a, 10, p.t)
        && equal::number(a, 11, p.k)
        && equal::number(a, 12, p.picture_id)
        && equal::number(a, 13, p.tl0_pic_idx)
        && equal::number(a, 14, p.tid)
        && equal::number(a, 15, p.y)
        && equal::number(a, 16, p.key_idx)
}

pub fn head<'a>(q: &'a [u8], a: &'a [u8]) -> bool {
    equal::head(a, is_partition_head(rows::field(q, 1)))
}

pub fn tail<'a>(q: &'a [u8], a: &'a [u8]) -> bool {
    equal::tail(a, is_partition_tail(rows::flag(q, 1)))
}
