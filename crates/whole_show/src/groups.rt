// The groups that are to be sent for units, by the paper's sentences and from the units alone: "A group is one STAP-A, one plain
// unit, or all fragments of one unit (handed out with its top bit clear)."
use crate::show::Show;
use crate::strings::{Full, STRINGS, Strings};
use crate::units::PREFIX;

#[derive(Clone, Copy)]
struct Group {
    // how many packets are before its first
    first: usize,
    // how many groups are before it
    number: usize,
}

#[derive(Drop)]
pub struct Groups<'a> {
    // by its last packet
    groups: [Option<Group>; STRINGS],
    // what is handed out for each: its units, each behind its prefix
    bytes: Strings,
    // how many of them are pairs of parameter sets
    pub pairs: usize,
    // how many packets they are
    pub packets: usize,
    // the units that are saved parameter sets
    sps: Option<&'a [u8]>,
    pps: Option<&'a [u8]>,
    // how many units are dropped for the mtu
    pub units_dropped: usize,
    // how many pairs of parameter sets are dropped for the mtu
    pub pairs_dropped: usize,
}

// How many packets a unit takes that is sent: one, or "FU-A with at most mtu - 2 bytes each", its first byte in none of them; none
// where it is dropped.
fn packets_of(len: usize, mtu: usize) -> Option<usize> {
    if len <= mtu {
        Some(1)
    } else if mtu < 3 {
        None
    } else {
        Some((len - 2) / (mtu - 2) + 1)
    }
}

impl<'a> Groups<'a> {
    pub fn new() -> Groups<'a> {
        Groups {
            groups: [None; STRINGS],
            bytes: Strings::new(),
            pairs: 0,
            packets: 0,
            sps: None,
            pps: None,
            units_dropped: 0,
            pairs_dropped: 0,
        }
    }

    // How many there are.
    pub fn len(&self) -> usize {
        self.bytes.len()
    }

    // What is handed out with a packet where all from another on were accepted: a group of these, if it is the group's last.
    pub fn handed_out(&self, unbroken: usize, last: usize) -> Option<&[u8]> {
        match self.groups.get(last) {
            Some(Some(group)) if unbroken <= group.first => self.bytes.get(group.number),
            _ => None,
        }
    }

    // One group more, of so many packets. What is handed out for it is there already.
    fn group(&mut self, packets: usize) -> Result<(), Full> {
        let first = self.packets;
        let number = self.bytes.len();
        let end = first.wrapping_add(packets);
        if end == 0 || self.groups.len() < end {
            return Err(Full);
        }
        self.groups[end - 1] = Some(Group { first, number });
        self.packets = end;
        self.bytes.end()
    }

    // "Any other unit, with both saved, is preceded by a STAP-A (0x78) if that fits the mtu; the pair is forgotten either way."
    fn pair(&mut self, mtu: usize) -> Result<(), Full> {
        let (Some(sps), Some(pps)) = (self.sps, self.pps) else {
            return Ok(());
        };
        if sps.len().saturating_add(pps.len()).saturating_add(5) <= mtu {
            self.bytes.extend(&PREFIX)?;
            self.bytes.extend(sps)?;
            self.bytes.extend(&PREFIX)?;
            self.bytes.extend(pps)?;
            self.group(1)?;
            self.pairs = self.pairs.wrapping_add(1);
        } else {
            self.pairs_dropped = self.pairs_dropped.wrapping_add(1);
        }
        self.sps = None;
        self.pps = None;
        Ok(())
    }

    // "A unit that fits goes alone, else as FU-A with at most mtu - 2 bytes each; under mtu 3 it is dropped."
    fn coded(&mut self, head: u8, tail: &[u8], mtu: usize) -> Result<(), Full> {
        let Some(packets) = packets_of(tail.len() + 1, mtu) else {
            self.units_dropped = self.units_dropped.wrapping_add(1);
            return Ok(());
        };
        self.bytes.extend(&PREFIX)?;
        self.bytes
            .push(if packets == 1 { head } else { head % 128 })?;
        self.bytes.extend(tail)?;
        self.group(packets)
    }

    // "Empty units and types 9, 12 are dropped; 7, 8 are saved."
    fn unit(&mut self, unit: &'a [u8], mtu: usize) -> Result<(), Full> {
        let Some((&head, tail)) = unit.split_first() else {
            return Ok(());
        };
        // Stays: numbers of the paper, and no names of what is tested here.
        match head % 32 {
            0 | 9 | 12 => Ok(()),
            7 => {
                self.sps = Some(unit);
                Ok(())
            }
            8 => {
                self.pps = Some(unit);
                Ok(())
            }
            _ => {
                self.pair(mtu)?;
                self.coded(head, tail, mtu)
            }
        }
    }
}

// The groups of a show's units.
pub fn of<'a>(show: &Show, units: &'a Strings, groups: &mut Groups<'a>) -> Result<(), Full> {
    for i in 0..units.len() {
        if let Some(unit) = units.get(i).and_then(|unit| unit.strip_prefix(&PREFIX)) {
            groups.unit(unit, usize::from(show.mtu))?;
        }
    }
    Ok(())
}
