// The joiner: a packet of one byte too many, and records that no call makes.
use crate::{number, tell};
use joiner::Joiner;
use std::io;

fn join(joiner: Joiner, packet: &[u8]) -> u8 {
    let mut gather = [0u8; 16];
    let mut out = [0u8; 16];
    number(joiner.join(packet, &mut gather, &mut out).answer)
}

fn close(joiner: Joiner) -> u8 {
    number(joiner.close(1).answer)
}

// A length of a run, where one is open or not.
fn holding(running: bool, gathered: usize) -> Joiner {
    let mut joiner = Joiner::open(3, 1);
    joiner.running = running;
    joiner.gathered = gathered;
    joiner
}

// A mark where no run is open.
// Stays: a function for each field, here and below, since each line is told whole, with the field's name in it.
fn marked(closed: bool) -> Joiner {
    let mut joiner = Joiner::open(3, 1);
    joiner.marked = true;
    joiner.closed = closed;
    joiner
}

// A time where no run is open.
fn timed(closed: bool) -> Joiner {
    let mut joiner = Joiner::open(3, 1);
    joiner.time = 2;
    joiner.closed = closed;
    joiner
}

fn lengths(rt: &HostRuntime, packet: &[u8]) -> io::Result<()> {
    tell(
        rt,
        &[
            (
                "joiner join, a length and no run",
                join(holding(false, 1), packet),
            ),
            (
                "joiner close, a length and no run",
                close(holding(false, 1)),
            ),
            (
                "joiner close, a run of 16,777,216 bytes",
                close(holding(true, 16777216)),
            ),
        ],
    )
}

fn marks(rt: &HostRuntime, packet: &[u8]) -> io::Result<()> {
    tell(
        rt,
        &[
            (
                "joiner join, a mark and no run",
                join(marked(false), packet),
            ),
            ("joiner close, a mark and no run", close(marked(false))),
            (
                "joiner join, a mark and no run, closed",
                join(marked(true), packet),
            ),
            (
                "joiner close, a mark and no run, closed",
                close(marked(true)),
            ),
        ],
    )
}

fn times(rt: &HostRuntime, packet: &[u8]) -> io::Result<()> {
    tell(
        rt,
        &[
            ("joiner join, a time and no run", join(timed(false), packet)),
            ("joiner close, a time and no run", close(timed(false))),
            (
                "joiner join, a time and no run, closed",
                join(timed(true), packet),
            ),
            (
                "joiner close, a time and no run, closed",
                close(timed(true)),
            ),
        ],
    )
}

pub fn all(rt: &HostRuntime) -> io::Result<()> {
    let long = [0x80u8; 65536];
    let packet = *b"\x80\x60\x00\x01\x00\x00\x00\x02\x00\x00\x00\x03\x41\x01\x02";
    tell(rt, &[("joiner join", join(Joiner::open(3, 1), &long))])?;
    lengths(rt, &packet)?;
    marks(rt, &packet)?;
    times(rt, &packet)
}
