// NAL units made by a seed, each behind its prefix.
use crate::random::number;
use crate::show::Show;
use crate::strings::{Full, Strings};

// "Each unit follows 00 00 00 01": with it what is handed out is compared.
pub const PREFIX: [u8; 4] = *b"\x00\x00\x00\x01";

// The place of the first unit's prefix: a unit's bytes are drawn by their places.
const FIRST_PLACE: usize = 50;

// How long a unit is that is sent: few bytes, about those of the mtu, up to it, or far beyond.
fn coded_len(mtu: u16, d: usize) -> usize {
    let m = usize::from(mtu);
    let e = d / 4;
    match d % 4 {
        0 => 3 + e % 10,
        1 => m + e % 3,
        2 => 3 + e % (m + 1),
        _ => m + e % (8 * m + 1),
    }
}

// How long a unit is by its type: of parameter sets and units that are dropped, now and then empty.
fn len_of(unit_type: usize, mtu: u16, d: usize) -> usize {
    // Stays: numbers of the paper, and no names of what is tested here.
    match unit_type {
        7 | 8 | 9 | 12 => d % 40,
        _ => coded_len(mtu, d),
    }
}

// So many bytes from a place on, behind a first one. Never are two zeros in a row, so that there is no start code; the last is no
// zero, which the start code behind it would take.
fn fill(seed: usize, head: u8, place: usize, len: usize, units: &mut Strings) -> Result<(), Full> {
    let mut b = head;
    for i in 0..len {
        units.push(b)?;
        b = (1 + number(seed, place.wrapping_add(i)) % 255 - (len - i) % 2) as u8;
    }
    Ok(())
}

// A unit by a number drawn: where it ends. Its first byte has a type of 1 to 23.
fn unit(show: &Show, drawn: usize, place: usize, units: &mut Strings) -> Result<usize, Full> {
    let unit_type = 1 + drawn % 23;
    let head = (unit_type + drawn / 23 % 8 * 32) as u8;
    let len = len_of(unit_type, show.mtu, drawn / 184);
    let body = place.wrapping_add(PREFIX.len());
    units.extend(&PREFIX)?;
    fill(show.seed, head, body, len, units)?;
    units.end()?;
    Ok(body.wrapping_add(len))
}

// The units of a show.
pub fn make(show: &Show, units: &mut Strings) -> Result<(), Full> {
    let mut place = FIRST_PLACE;
    for k in 0..show.units() {
        place = unit(show, number(show.seed, usize::from(k)), place, units)?;
    }
    Ok(())
}
