// A header's record: 12 numbers, the sources, and the ids, the lengths and the data of the elements. In an answer follows what stands
// behind the sources, behind the lengths, and behind ids and data.
use crate::{equal, rows};
use header::{Extensions, Header};
use std::array;

// What stands behind the counts in a question, so that a call that looks there gives itself away.
const STALE: u32 = 0xA5A5A5A5;

// The record of a question. Where it has more sources, elements or data than there are places, its counts and lengths say so.
pub fn record(q: &[u8]) -> Header {
    let sources = rows::field(q, 12);
    Header {
        version: rows::byte(q, 0),
        padding: rows::flag(q, 1),
        extension: rows::flag(q, 2),
        marker: rows::flag(q, 3),
        payload_type: rows::byte(q, 4),
        sequence_number: rows::short(q, 5),
        timestamp: rows::word(q, 6),
        ssrc: rows::word(q, 7),
        csrc_count: rows::number(q, 8),
        csrc: array::from_fn(|i| rows::nth(sources, i).unwrap_or(STALE)),
        extension_profile: rows::short(q, 9),
        extensions: elements(q),
        extensions_padding: rows::number(q, 11),
    }
}

fn elements(q: &[u8]) -> Extensions {
    let mut ids = [rows::FILL; 32];
    let mut bytes = [rows::FILL; 1024];
    rows::lay(rows::field(q, 13), &mut ids);
    rows::lay(rows::field(q, 15), &mut bytes);
    let lens = rows::field(q, 14);
    Extensions {
        count: rows::number(q, 10),
        ids,
        lens: array::from_fn(|i| (rows::nth(lens, i).unwrap_or(STALE) % 65536) as u16),
        bytes,
    }
}

// All fields and all places, those behind the counts too.
pub fn same_record(a: &[u8], h: Header) -> bool {
    let fill = rows::byte(a, 18);
    same_numbers(a, h)
        && same_words(rows::field(a, 12), rows::word(a, 16), &h.csrc)
        && equal::places(rows::field(a, 13), fill, &h.extensions.ids)
        && same_words(rows::field(a, 14), rows::word(a, 17), &h.extensions.lens)
        && equal::places(rows::field(a, 15), fill, &h.extensions.bytes)
}

fn same_numbers(a: &[u8], h: Header) -> bool {
    equal::number(a, 0, h.version)
        && equal::number(a, 1, h.padding)
        && equal::number(a, 2, h.extension)
        && equal::number(a, 3, h.marker)
        && equal::number(a, 4, h.payload_type)
        && equal::number(a, 5, h.sequence_number)
        && equal::number(a, 6, h.timestamp as usize)
        && equal::number(a, 7, h.ssrc as usize)
        && equal::number(a, 8, h.csrc_count)
        && equal::number(a, 9, h.extension_profile)
        && equal::number(a, 10, h.extensions.count)
        && equal::number(a, 11, h.extensions_padding)
}

// All places of a list: the words, and fill behind them.
fn same_words<N: Copy + Into<u32>>(words: &[u8], fill: u32, list: &[N]) -> bool {
    list.iter().enumerate().all(|(i, x)| (*x).into() == rows::nth(words, i).unwrap_or(fill))
}
