// The account of a show: what became of the packets, and what was handed out. All counts run modulo 2^64.
ghost use Rattle.std.specs.Prelude.{◌≡◌, Some};
ghost use Rattle.join.specs.Jump.{jump_text};
ghost use Rattle.join.specs.Account.{nothing_yet, accepted_by, came_late, refused_by};

use crate::units::Units;
use error::Error;
use std::fmt;
use std::fmt::Write;
use stream::Text;
use stream::status::Status;

#[derive(Clone, Copy)]
pub struct Account {
    // the packets of the file
    pub packets: u64,
    // those that the joiner took
    pub accepted: u64,
    // those that came behind a later one
    pub late: u64,
    // packets of another source, refusal 20
    pub others: u64,
    // the other refused packets, by the number of the refusal
    pub refused: [u64; 256],
    // what was handed out: units, those of them that are marked, bytes
    pub units: u64,
    pub marked: u64,
    pub bytes: u64,
}

impl Account {
    pub fn new() -> Account
        ensures { result ≡ nothing_yet }
    {
        Account {
            packets: 0,
            accepted: 0,
            late: 0,
            others: 0,
            refused: [0; 256],
            units: 0,
            marked: 0,
            bytes: 0,
        }
    }

    #[tactic(auto, unfolding(crate::specs::Account::accepted_by))]
    pub fn accept(mut self, units: Units, bytes: usize) -> Account
        ensures { result ≡ accepted_by units bytes self }
    {
        self.packets = self.packets.wrapping_add(1);
        self.accepted = self.accepted.wrapping_add(1);
        self.units = self.units.wrapping_add(units.count as u64);
        self.marked = self.marked.wrapping_add(units.marked as u64);
        self.bytes = self.bytes.wrapping_add(bytes as u64);
        self
    }

    #[tactic(auto, unfolding(crate::specs::Account::came_late))]
    pub fn come_late(mut self) -> Account
        ensures { result ≡ came_late self }
    {
        self.packets = self.packets.wrapping_add(1);
        self.late = self.late.wrapping_add(1);
        self
    }

    pub fn refuse(mut self, e: Error) -> Account
        ensures { result ≡ refused_by e self }
    {
        self.packets = self.packets.wrapping_add(1);
        let n = usize::from(e.number());
        // Stays: by its number, as the definition of the account has it (`refused_by`).
        if n == 20 {
            self.others = self.others.wrapping_add(1);
            return self;
        }
        self.refused[n] = self.refused[n].wrapping_add(1);
        self
    }

    fn write(&self, text: &mut Text, jump: Jump, missed: u32) -> fmt::Result {
        write!(text, "{jump}")?;
        writeln!(text, "packets {}", self.packets)?;
        writeln!(text, "accepted {}", self.accepted)?;
        writeln!(text, "late {}", self.late)?;
        writeln!(text, "other sources {}", self.others)?;
        for (number, n) in self.refused.iter().enumerate() {
            if *n != 0 {
                writeln!(text, "refused {number}: {n}")?;
            }
        }
        writeln!(text, "missed {missed}")?;
        writeln!(text, "units {}", self.units)?;
        writeln!(text, "marked units {}", self.marked)?;
        writeln!(text, "bytes {}", self.bytes)
    }

    // The totals, a line each, behind those of the jump at the end.
    pub fn text(&self, jump: Jump, missed: u32) -> Text {
        let mut text = Text::new();
        let _ = self.write(&mut text, jump, missed);
        text
    }

    // A show that handed out nothing leaves no clip.
    pub fn outcome(&self) -> Result<(), Status> {
        if self.bytes == 0 {
            return Err(Status::Nothing);
        }
        Ok(())
    }
}

// The numbers that never came before a packet, or before the end: `count` of them from `first` on.
#[derive(Clone, Copy)]
pub struct Jump {
    pub first: u16,
    pub count: u16,
}

// A line, where there are any.
impl fmt::Display for Jump {
    ghost output = { λ j. Some (jump_text j.first j.count) };

    fn fmt<W: fmt::Write>(&self, f: &mut fmt::Formatter<W>) -> fmt::Result {
        if self.count == 0 {
            return Ok(());
        }
        let last = self.first.wrapping_add(self.count - 1);
        writeln!(f, "jump from {} to {last}", self.first)
    }
}
