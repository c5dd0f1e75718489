// Headers and packets: read, measured, written; the header's extension elements set, deleted, got, listed.
use crate::record::{record, same_record};
use crate::{equal, rows};
use error::Error;
use header::{Changed, Data, Header, Ids};
use packet::Payload;

pub fn read_header<'a>(q: &'a [u8], a: &'a [u8]) -> bool {
    let r = Header::unmarshal(rows::field(q, 1));
    let read = r.read;
    let same = match read {
        Ok(at) => equal::told(a, 0, at, 0, 0),
        Err(e) => equal::refused(a, e),
    };
    same && same_record(rows::rest(a, 4), r.header)
}

pub fn read_packet<'a>(q: &'a [u8], a: &'a [u8]) -> bool {
    let r = packet::unmarshal(rows::field(q, 1));
    let read = r.read;
    let same = match read {
        Ok(Payload { at, len }) => equal::told(a, 0, at, len, 0),
        Err(e) => equal::refused(a, e),
    };
    same && same_record(rows::rest(a, 4), r.header)
}

// A question about a record: a number, a fill, bytes, and the record.
pub fn on_record<'a>(kind: u8, q: &'a [u8], a: &'a [u8]) -> bool {
    let header = record(rows::rest(q, 4));
    match kind {
        2 => length(a, header.marshal_size()),
        3 => length(a, header.get_extension_payload_len()),
        4 => write_header(header, q, a),
        5 => changed(a, header.set_extension(rows::byte(q, 1), rows::field(q, 3))),
        6 => changed(a, header.del_extension(rows::byte(q, 1))),
        7 => got(a, header.get_extension(rows::byte(q, 1))),
        8 => ids(a, header.get_extension_ids()),
        10 => length(a, packet::marshal_size(header, rows::field(q, 3))),
        11 => write_packet(header, q, a),
        _ => false,
    }
}

fn length(a: &[u8], length: Result<usize, Error>) -> bool {
    match length {
        Ok(n) => equal::told(a, 0, n, 0, 0),
        Err(e) => equal::refused(a, e),
    }
}

// Its arrays do not count.
fn is_bare(header: Header) -> bool {
    header.csrc_count == 0 && header.extensions.count == 0
}

// A record that is bare is asked of the entry for such too.
fn write_header<'a>(header: Header, q: &'a [u8], a: &'a [u8]) -> bool {
    written(q, a, |out| header.marshal_to(out))
        && (!is_bare(header)
            || written(q, a, |out| {
                header::marshal_bare(
                    header.fixed(),
                    header.extension_profile,
                    header.extensions_padding,
                    out,
                )
            }))
}

fn write_packet<'a>(header: Header, q: &'a [u8], a: &'a [u8]) -> bool {
    let payload = rows::field(q, 3);
    written(q, a, |out| packet::marshal_to(header, payload, out))
        && (!is_bare(header)
            || written(q, a, |out| {
                packet::marshal_bare(
                    header.fixed(),
                    header.extension_profile,
                    header.extensions_padding,
                    payload,
                    out,
                )
            }))
}

// What a call writes that is lent so many places.
fn written<'a, F: FnOnce(&mut [u8]) -> Result<usize, Error>>(
    q: &'a [u8],
    a: &'a [u8],
    write: F,
) -> bool
    requires { F.IsAlwaysCallable write }
{
    let fill = rows::byte(q, 2);
    let mut out = [fill; 2048];
    let places = rows::room(rows::number(q, 1));
    let answer = write(&mut out[0..places]);
    length(a, answer) && equal::places(rows::field(a, 4), fill, &out)
}

fn changed(a: &[u8], r: Changed) -> bool {
    let change = r.change;
    let same = match change {
        Ok(()) => equal::told(a, 0, 0, 0, 0),
        Err(e) => equal::refused(a, e),
    };
    same && same_record(rows::rest(a, 4), r.header)
}

fn got(a: &[u8], got: Result<Option<Data>, Error>) -> bool {
    match got {
        Ok(Some(Data { at, len })) => equal::told(a, 0, at, len, 0),
        Ok(None) => equal::told(a, equal::NOTHING, 0, 0, 0),
        Err(e) => equal::refused(a, e),
    }
}

fn ids(a: &[u8], r: Ids) -> bool {
    let count = r.count;
    let same = match count {
        Ok(n) => equal::told(a, 0, n, 0, 0),
        Err(e) => equal::refused(a, e),
    };
    same && equal::places(rows::field(a, 4), 0, &r.ids)
}
