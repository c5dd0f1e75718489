// The account of shows.
use crate::groups::Groups;
use crate::send::Sent;
use crate::theorem::Taken;
use error::Error;
use std::fmt;

#[derive(Clone, Copy, Default)]
pub struct Account {
    // packets and groups that were sent
    sent: usize,
    groups: usize,
    // groups that are pairs of parameter sets, and pairs that were dropped for the mtu
    pairs: usize,
    pairs_dropped: usize,
    // calls, and what they answered
    arrived: usize,
    accepted: usize,
    late: usize,
    foreign: usize,
    unreadable: usize,
    // packets that were missed, by the joiner's count
    missed: usize,
    // groups that were handed out, and their bytes
    handed_out: usize,
    bytes: usize,
    // what is not as the theorem says, counts of what was dropped included
    unlike: usize,
}

// Adds to a figure.
fn add(figure: &mut usize, n: usize) {
    *figure = figure.wrapping_add(n);
}

impl Account {
    pub fn check(&mut self, right: bool) {
        add(&mut self.unlike, usize::from(!right));
    }

    // What is sent by the paper's sentences, to which the sender's packets and its counts of what was dropped are held.
    pub fn sent(&mut self, groups: &Groups<'_>, sent: &Sent) {
        add(&mut self.sent, groups.packets);
        add(&mut self.groups, groups.len());
        add(&mut self.pairs, groups.pairs);
        add(&mut self.pairs_dropped, groups.pairs_dropped);
        self.check(groups.packets == sent.packets.len());
        self.check(groups.units_dropped == sent.units_dropped);
        self.check(groups.pairs_dropped == sent.pairs_dropped);
    }

    fn answered(&mut self, answer: Result<Taken, Error>) -> &mut usize {
        match answer {
            Ok(Taken::Accepted) => &mut self.accepted,
            Ok(Taken::Late) => &mut self.late,
            Err(Error::OtherSource) => &mut self.foreign,
            Err(_) => &mut self.unreadable,
        }
    }

    // A call's answer and what it handed out, held to what the theorem says of them.
    pub fn call(
        &mut self,
        answer: Result<Taken, Error>,
        said: Result<Taken, Error>,
        bytes: Option<&[u8]>,
        group: &[u8],
    ) {
        let count = bytes.unwrap_or(b"").len();
        add(&mut self.arrived, 1);
        add(self.answered(answer), 1);
        add(&mut self.bytes, count);
        add(&mut self.handed_out, usize::from(0 < count));
        self.check(answer == said);
        self.check(bytes == Some(group));
    }

    // The missed total at a show's closing, if it closed.
    pub fn closed(&mut self, missed: Option<u32>) {
        match missed {
            Some(n) => {
                add(&mut self.missed, n as usize);
                self.check(self.accepted.wrapping_add(self.missed) == self.sent);
            }
            None => self.check(false),
        }
    }
}

impl fmt::Display for Account {
    fn fmt<W: fmt::Write>(&self, f: &mut fmt::Formatter<W>) -> fmt::Result {
        let figures = [
            self.sent,
            self.groups,
            self.pairs,
            self.pairs_dropped,
            self.arrived,
            self.accepted,
            self.late,
            self.foreign,
            self.unreadable,
            self.missed,
            self.handed_out,
            self.bytes,
            self.unlike,
        ];
        for figure in figures {
            write!(f, " {figure}")?;
        }
        Ok(())
    }
}
