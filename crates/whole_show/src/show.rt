// What a show is made of, by its seed. The first three are: clean, everything that is sent arrives, in order; lossy; and everything,
// lost, repeated, moved, and mixed with what is not the sender's. The others are drawn.
ghost use Rattle.std.specs.Prelude.{◌+◌, ◌^◌, ◌<◌, ◌≤◌};

use crate::random::number;

#[derive(Clone, Copy)]
pub struct Show {
    // what its random numbers are drawn by
    pub seed: usize,
    // a quarter of its units
    pub quarter: u8,
    // 3 or more
    pub mtu: u16,
    // the number and the time of its first packet
    pub first_number: u16,
    pub first_time: u32,
    // of a thousand packets, how many are lost, and with how many comes an earlier one again, a later one too early, or what is not
    // the sender's
    pub lost: u16,
    pub repeated: u16,
    pub early: u16,
    pub foreign: u16,
}

const CLEAN: Show = Show {
    seed: 0,
    quarter: 38,
    mtu: 400,
    first_number: 65507,
    first_time: 4294751000,
    lost: 0,
    repeated: 0,
    early: 0,
    foreign: 0,
};

const LOSSY: Show = Show {
    seed: 1,
    quarter: 60,
    mtu: 100,
    first_number: 65045,
    first_time: 4294599000,
    lost: 50,
    repeated: 0,
    early: 0,
    foreign: 0,
};

const EVERYTHING: Show = Show {
    seed: 2,
    quarter: 70,
    mtu: 100,
    first_number: 65535,
    first_time: 4294557000,
    lost: 20,
    repeated: 50,
    early: 20,
    foreign: 100,
};

// Number k of a seed, from the least up to so many above it.
fn drawn(seed: usize, k: usize, least: u32, above: u16) -> u32
    requires { least + above < 2 ^ 32 }
    ensures { result ≤ least + above }
{
    least + (number(seed, k) % (usize::from(above) + 1)) as u32
}

impl Show {
    pub fn of(seed: usize) -> Show {
        match seed {
            0 => CLEAN,
            1 => LOSSY,
            2 => EVERYTHING,
            _ => Show::drawn(seed),
        }
    }

    // Its first packet's number and time go on by its units.
    fn drawn(seed: usize) -> Show {
        let quarter = drawn(seed, 0, 8, 24);
        Show {
            seed,
            quarter: quarter as u8,
            mtu: drawn(seed, 1, 3, 299) as u16,
            first_number: ((drawn(seed, 2, 65236, 199) + 4 * quarter + 5) % 65536) as u16,
            first_time: drawn(seed, 7, 4294687000, 65535) + (2 * quarter + 2) * 3000,
            lost: drawn(seed, 3, 0, 59) as u16,
            repeated: drawn(seed, 4, 0, 59) as u16,
            early: drawn(seed, 5, 0, 59) as u16,
            foreign: drawn(seed, 6, 0, 59) as u16,
        }
    }

    // Two frames have four units.
    pub fn frames(&self) -> u16 {
        2 * u16::from(self.quarter)
    }

    // Stays: the paper counts units and frames apart, and each is one product.
    pub fn units(&self) -> u16 {
        4 * u16::from(self.quarter)
    }

    // "packet i bears (first + i) mod 65,536"
    pub fn number_of(&self, packet: usize) -> u16 {
        self.first_number.wrapping_add((packet % 65536) as u16)
    }

    // The time of a group by its first packet: "all packets of one unit carry one timestamp". The first packet has one time, the next
    // two are 3,000 on, and so on, and in most shows it wraps.
    pub fn time_of(&self, packet: usize) -> u32 {
        self.first_time
            .wrapping_add(((packet % 65536 + 1) / 2 * 3000) as u32)
    }
}
