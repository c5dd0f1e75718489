// Replays lists of questions with their answers through the proved calls. data/header, packet, h264 and vp8 have the Rust's own answers
// (rust/oracle), data/joiner those of a plain model (rust/channel), and in data/altered each answer was altered in one field: none
// may be equal.
#![tactic(auto)]

mod equal;
mod h264_calls;
mod joiner_calls;
mod record;
mod rows;
mod rtp_calls;
mod vp8_calls;

use joiner::Joiner;
use joiner_calls::Host;
use rows::Fields;
use std::{fmt, fs, io};

// The counts of a list.
#[derive(Drop)]
struct Tally {
    rows: u64,
    equal: u64,
    // the first row that is not equal, counted from 1
    other: Option<u64>,
}

// What goes from row to row, q being the fields of the question and a those of the answer.
// Stays: the kinds are the lists' own numbers (rust/rows/README.md), and an enum would only name each call a second time.
fn played<'a>(host: &mut Host, q: &'a [u8], a: &'a [u8]) -> bool {
    let kind = rows::byte(q, 0);
    match kind {
        21 => host.open(q, a),
        22 => host.room(q, a),
        23 => host.join(q, a),
        24 => host.close(q, a),
        _ => asked(kind, q, a),
    }
}

fn asked<'a>(kind: u8, q: &'a [u8], a: &'a [u8]) -> bool {
    match kind {
        1 => rtp_calls::read_header(q, a),
        9 => rtp_calls::read_packet(q, a),
        12 => h264_calls::next(q, a),
        13 => h264_calls::send(q, a),
        14 => h264_calls::read(q, a),
        15 => h264_calls::head(q, a),
        16 => h264_calls::tail(q, a),
        17 => vp8_calls::send(q, a),
        18 => vp8_calls::read(q, a),
        19 => vp8_calls::head(q, a),
        20 => vp8_calls::tail(q, a),
        _ => rtp_calls::on_record(kind, q, a),
    }
}

fn replay(list: &[u8]) -> Tally {
    let mut tally = Tally {
        rows: 0,
        equal: 0,
        other: None,
    };
    let mut host = Host::new(Joiner::open(0, 0), 0, 0, false);
    for row in Fields(list) {
        tally.row(played(&mut host, rows::field(row, 0), rows::field(row, 1)));
    }
    tally
}

impl Tally {
    fn row(&mut self, same: bool) {
        self.rows = self.rows.wrapping_add(1);
        if same {
            self.equal = self.equal.wrapping_add(1);
        } else if self.other.is_none() {
            self.other = Some(self.rows);
        }
    }
}

impl fmt::Display for Tally {
    fn fmt<W: fmt::Write>(&self, f: &mut fmt::Formatter<W>) -> fmt::Result {
        let rows = self.rows;
        let equal = self.equal;
        write!(f, "{rows} rows, {equal} equal")?;
        if let Some(other) = self.other {
            write!(f, ", unequal from row {other}")?;
        }
        Ok(())
    }
}

// A list that cannot be read is named, and the others are replayed.
fn play(rt: &HostRuntime, name: &str) -> io::Result<()> {
    match fs::read(rt, name) {
        Ok(list) => {
            let tally = replay(&list);
            println!(rt; "{name}: {tally}")
        }
        Err(e) => eprintln!(rt; "{name}: {e}"),
    }
}

fn main(rt: HostRuntime) -> io::Result<()> {
    play(&rt, "header")?;
    play(&rt, "packet")?;
    play(&rt, "h264")?;
    play(&rt, "vp8")?;
    play(&rt, "joiner")?;
    play(&rt, "altered")
}
