// What is compared with the fields a of an answer.
use crate::rows;
use error::Error;

// Told in place of a refusal's number where a call neither refuses nor finds anything: no start code, no element, a late packet.
// Stays: the lists' own number for this (rust/rows/README.md), in the place of the refusals' numbers.
pub const NOTHING: usize = 255;

// What a lent table of ends holds beforehand.
pub const NO_END: usize = 0xA5A5A5A5;

pub fn number<N: Into<usize>>(a: &[u8], n: usize, x: N) -> bool {
    rows::number(a, n) == x.into()
}

// An answer begins with 0 or the number of a refusal, and three numbers that are told beside it.
pub fn told(a: &[u8], refusal: usize, x: usize, y: usize, z: usize) -> bool {
    number(a, 0, refusal) && number(a, 1, x) && number(a, 2, y) && number(a, 3, z)
}

// Stays: each call matches its own answer and names its values, and only a refusal is told alike.
pub fn refused(a: &[u8], e: Error) -> bool {
    let refusal = usize::from(e.number());
    match e {
        Error::StapASizeLargerThanBuffer(size, left) => told(a, refusal, size, left, 0),
        Error::NaluTypeIsNotHandled(kind) => told(a, refusal, usize::from(kind), 0, 0),
        _ => told(a, refusal, 0, 0, 0),
    }
}

// What the partition tests of each codec answer.
pub fn head(a: &[u8], answer: Result<bool, Error>) -> bool {
    match answer {
        Ok(is) => told(a, 0, usize::from(is), 0, 0),
        Err(e) => refused(a, e),
    }
}

pub fn tail(a: &[u8], is: bool) -> bool {
    told(a, 0, usize::from(is), 0, 0)
}

// All places: the bytes, and fill behind them.
pub fn places(bytes: &[u8], fill: u8, places: &[u8]) -> bool {
    places.iter().enumerate().all(|(i, place)| *place == bytes.get(i).copied().unwrap_or(fill))
}

// All of a table of ends.
pub fn ends(bytes: &[u8], ends: &[usize]) -> bool {
    ends.iter().enumerate().all(|(i, end)| *end
        == rows::nth(bytes, i).map_or(NO_END, |word| word as usize))
}
