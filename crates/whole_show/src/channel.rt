// What arrives, by a seed.
use crate::random::number;
use crate::show::Show;
use crate::strings::Strings;

// What arrives at a turn.
#[derive(Clone, Copy)]
pub enum Arrival {
    // the sender's packet with so many before it
    Own(usize),
    // a packet of another source
    Foreign,
    // what cannot be read: cut to 11 bytes, with the bit for extensions set, and with that for padding, where there are none
    Cut,
    Extended,
    Padded,
}

impl Arrival {
    // Its bytes: of the sender's packets only those that there are.
    pub fn packet<'a>(self, packets: &'a Strings) -> Option<&'a [u8]> {
        match self {
            Arrival::Own(i) => packets.get(i),
            Arrival::Foreign => Some(
                b"\x80\x60\x00\x00\x00\x00\x00\x00\x24\x68\xAC\xE1\x65\x01\xFF",
            ),
            Arrival::Cut => Some(b"\x80\x60\x00\x00\x00\x00\x00\x00\x24\x68\xAC"),
            Arrival::Extended => Some(b"\x90\x60\x00\x00\x00\x00\x00\x00\x24\x68\xAC\xE0"),
            Arrival::Padded => Some(b"\xA0\x60\x00\x00\x00\x00\x00\x00\x24\x68\xAC\xE0"),
        }
    }
}

// What is not the sender's, by a number.
fn other(n: usize) -> Arrival {
    match n % 4 {
        0 => Arrival::Foreign,
        1 => Arrival::Cut,
        2 => Arrival::Extended,
        _ => Arrival::Padded,
    }
}

// How many turns there are: four for each packet, and more in which late ones still come.
pub fn turns(show: &Show, packets: &Strings) -> usize {
    packets
        .len()
        .wrapping_add(usize::from(show.units()) + 5)
        .wrapping_mul(4)
}

// What arrives at turn t, if anything does: of four turns a packet has one to come, one for an earlier one to come again, one for a
// later one to come too early, and one for what is not the sender's.
pub fn at_turn(show: &Show, t: usize) -> Option<Arrival> {
    let d = number(show.seed, t);
    let chance = (d % 1000) as u16;
    let far = d / 1000 % 24;
    let i = t / 4;
    match t % 4 {
        0 if show.lost <= chance => Some(Arrival::Own(i)),
        1 if chance < show.repeated => Some(Arrival::Own(i - far % (i + 1))),
        2 if chance < show.early => Some(Arrival::Own(i + far)),
        3 if chance < show.foreign => Some(other(far)),
        _ => None,
    }
}
