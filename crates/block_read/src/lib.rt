// Reading a block of extension elements.
//
// Only proved code calls this crate, so its function may ask that the block lies in the packet.
#![tactic(auto)]

ghost use Rattle.std.specs.Prelude.{◌≡◌, Bool, true, false, [], ◌+◌, ◌<◌, ◌≤◌, length, drop};
ghost use Rattle.error.specs.Said.{said};
ghost use Rattle.block_read.specs.Read.{is_two, items_by, items, read_block, block_at};
ghost use Rattle.block_read.specs.Said.{item_of, block_seen, Answers, elements_read, Laid};

use block::{EXTENSION_ID_RESERVED, Form};
use error::Error;

// A block before anything of it is kept.
#[derive(Clone, Copy)]
pub struct Seen {
    // where the payload begins behind it
    pub place: usize,
    // how many elements there are: 0 to 32
    pub count: usize,
    // how many zeros there were
    pub padding: usize,
}

// What stands at a place of a block: an element is `head` bytes, then `len` bytes of data.
#[derive(Clone, Copy)]
enum Next {
    Pad,
    Stop,
    Past,
    Element { head: usize, id: u8, len: usize },
}

// How RFC 8285 lays out the elements of a profile.
trait Layout {
    // whether it is the two-byte one
    ghost two: { Bool };

    // What stands at a place of the packet.
    fn next(packet: &[u8], at: usize) -> Next
        requires { at < length packet.now }
        ensures { item_of result ≡ items_by two (drop at packet.now) };
}

struct OneByte;

struct TwoByte;

// RFC 8285, section 4.2:
//
//  0
//  0 1 2 3 4 5 6 7
// +-+-+-+-+-+-+-+-+
// |  ID   |  len  |
// +-+-+-+-+-+-+-+-+
impl Layout for OneByte {
    ghost two = { false };

    fn next(packet: &[u8], at: usize) -> Next {
        let b = packet[at];
        if b == 0 {
            return Next::Pad;
        }
        let id = b / 16;
        if id == EXTENSION_ID_RESERVED {
            return Next::Stop;
        }
        let len = usize::from(b % 16) + 1;
        if packet.len() - (at + 1) < len {
            return Next::Past;
        }
        Next::Element { head: 1, id, len }
    }
}

// RFC 8285, section 4.3:
//
//  0                   1
//  0 1 2 3 4 5 6 7 8 9 0 1 2 3 4 5
// +-+-+-+-+-+-+-+-+-+-+-+-+-+-+-+-+
// |       ID      |     length    |
// +-+-+-+-+-+-+-+-+-+-+-+-+-+-+-+-+
impl Layout for TwoByte {
    ghost two = { true };

    fn next(packet: &[u8], at: usize) -> Next {
        let id = packet[at];
        if id == 0 {
            return Next::Pad;
        }
        if packet.len() <= at + 1 {
            return Next::Past;
        }
        let len = usize::from(packet[at + 1]);
        if packet.len() - (at + 2) < len {
            return Next::Past;
        }
        Next::Element { head: 2, id, len }
    }
}

// What stands at a place of the packet, by the block's form. A block of another profile is one element, and nobody goes through it.
fn next_at(packet: &[u8], at: usize, form: Form) -> Next
    requires { at < length packet.now }
    ensures { item_of result ≡ items_by (is_two form) (drop at packet.now) }
{
    match form {
        Form::TwoByte => TwoByte::next(packet, at),
        Form::OneByte | Form::Other => OneByte::next(packet, at),
    }
}

// The elements of a block of `len` bytes. An element may run past the block: `at` then lies behind its end.
// Stays: a loop over where the block lies in the packet, and not over its bytes: each element says where the next one begins, and one may run past the end.
fn see_items(packet: &[u8], start: usize, len: usize, form: Form) -> Result<Seen, Error>
    requires { start + len ≤ length packet.now }
    ensures { said result ≡ block_seen (length packet.now) (items (items_by (is_two form)) (block_at packet.now start len)) }
{
    let end = start + len;
    let mut at = start;
    let mut count = 0;
    let mut used = 0;
    let mut padding = 0;
    while at < end {
        match next_at(packet, at, form) {
            Next::Pad => {
                at += 1;
                padding += 1;
            }
            Next::Stop => {
                return Ok(Seen {
                    place: at + 1,
                    count,
                    padding,
                });
            }
            Next::Past => return Err(Error::ElementPastPacket),
            Next::Element {
                head,
                id: _,
                len: n,
            } => {
                if 32 < count + 1 || 1024 < used + n {
                    return Err(Error::OverLimits);
                }
                count += 1;
                used += n;
                at = at + head + n;
            }
        }
    }
    Ok(Seen {
        place: at,
        count,
        padding,
    })
}

// What a block holds and where the payload begins behind it.
pub fn see_block(packet: &[u8], start: usize, len: usize, form: Form) -> Result<Seen, Error>
    requires { start + len ≤ length packet.now }
    ensures { said result ≡ block_seen (length packet.now) (read_block form (block_at packet.now start len)) }
{
    match form {
        Form::OneByte | Form::TwoByte => see_items(packet, start, len, form),
        Form::Other => {
            if 1024 < len {
                return Err(Error::OverLimits);
            }
            Ok(Seen {
                place: start + len,
                count: 1,
                padding: 0,
            })
        }
    }
}

// The elements of a block that was seen, into the arrays of a record, which are zeros before.
// Stays: a loop, as in `see_items`; and arrays that C lends each by itself, so in all that fills them.
fn fill_items(
    packet: &[u8],
    start: usize,
    len: usize,
    form: Form,
    ids: &mut [u8; 32],
    lens: &mut [u16; 32],
    bytes: &mut [u8; 1024],
)
    requires len_in_bounds { start + len ≤ length packet.now }
    requires answers { Answers (items (items_by (is_two form)) (block_at packet.now start len)) }
    requires laid { Laid [] ids.old lens.old bytes.old }
    ensures { Laid (elements_read (items (items_by (is_two form)) (block_at packet.now start len))) ids.new lens.new bytes.new }
{
    let end = start + len;
    let mut at = start;
    let mut count = 0;
    let mut used = 0;
    while at < end {
        match next_at(packet, at, form) {
            Next::Pad => at += 1,
            Next::Stop | Next::Past => return,
            Next::Element { head, id, len: n } => {
                let from = at + head;
                ids[count] = id;
                lens[count] = n as u16;
                wire::copy_at(&packet[from..from + n], bytes, used);
                count += 1;
                used += n;
                at = from + n;
            }
        }
    }
}

pub fn fill_block(
    packet: &[u8],
    start: usize,
    len: usize,
    form: Form,
    ids: &mut [u8; 32],
    lens: &mut [u16; 32],
    bytes: &mut [u8; 1024],
)
    requires len_in_bounds { start + len ≤ length packet.now }
    requires answers { Answers (read_block form (block_at packet.now start len)) }
    requires laid { Laid [] ids.old lens.old bytes.old }
    ensures { Laid (elements_read (read_block form (block_at packet.now start len))) ids.new lens.new bytes.new }
{
    match form {
        Form::OneByte | Form::TwoByte => fill_items(packet, start, len, form, ids, lens, bytes),
        Form::Other => {
            ids[0] = 0;
            lens[0] = len as u16;
            wire::copy_at(&packet[start..start + len], bytes, 0);
        }
    }
}
