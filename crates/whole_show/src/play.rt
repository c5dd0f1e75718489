// The packets through the joiner, in the order of arrival, each call held to what the theorem says of it.
use crate::account::Account;
use crate::buffers::Buffers;
use crate::channel;
use crate::channel::Arrival;
use crate::groups::Groups;
use crate::send::SOURCE;
use crate::show::Show;
use crate::strings::Strings;
use crate::theorem::{Arrived, Taken};
use error::Error;
use joiner::{Joined, Joiner};

// The joiner, and what arrived so far.
#[derive(Clone, Copy)]
struct Host {
    joiner: Joiner,
    arrived: Arrived,
}

// An answer, and how many bytes it says were handed out.
fn noted(answer: Result<Joined, Error>) -> (Result<Taken, Error>, usize) {
    match answer {
        Ok(
            Joined::Accepted {
                first: _,
                count: _,
                bytes,
            },
        ) => (Ok(Taken::Accepted), bytes),
        Ok(Joined::Late) => (Ok(Taken::Late), 0),
        Err(e) => (Err(e), 0),
    }
}

impl Host {
    // A packet that arrives, and the call's answer held to what is said of it.
    fn take(
        &mut self,
        arrival: Arrival,
        packet: &[u8],
        groups: &Groups<'_>,
        buffers: &mut Buffers,
        account: &mut Account,
    ) {
        let step = joiner::join_by_value(
            self.joiner,
            packet,
            &mut buffers.gather,
            &mut buffers.out,
        );
        self.joiner = step.joiner;
        let (answer, count) = noted(step.answer);
        let said = self.arrived.answer_to(arrival);
        let group = self.arrived.handed_out(arrival, groups);
        account.call(answer, said, buffers.out.get(..count), group);
    }

    // "Closing takes the number after the last sent": the missed total, if it closes.
    fn missed(&self, number: u16) -> Option<u32> {
        let closed = self.joiner.close(number).joiner;
        closed.closed.then_some(closed.missed)
    }
}

// A show.
pub fn play(
    show: &Show,
    packets: &Strings,
    groups: &Groups<'_>,
    buffers: &mut Buffers,
    account: &mut Account,
) {
    let mut host = Host {
        joiner: Joiner::open(SOURCE, show.number_of(0)),
        arrived: Arrived::default(),
    };
    for t in 0..channel::turns(show, packets) {
        if let Some(arrival) = channel::at_turn(show, t) {
            if let Some(packet) = arrival.packet(packets) {
                host.take(arrival, packet, groups, buffers, account);
            }
        }
    }
    account.closed(host.missed(show.number_of(packets.len())));
}
