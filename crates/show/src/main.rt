// show PACKETS [h264|vp8]: one line for each packet of a file.
#![tactic(auto)]

mod above;
mod kind;
mod line;

use above::Above;
use std::fs::File;
use std::io;
use std::process::ExitCode;
use std::rt::Env;
use stream::status::Status;
use stream::{Output, Record, Text, Window, status};

// What the payloads are.
#[derive(Clone, Copy)]
pub enum Codec {
    H264,
    Vp8,
}

// The codec that the second argument names: where it does not name VP8, or is not there, H.264.
fn codec_named(rt: &HostRuntime) -> Codec {
    let mut name = [0u8; 4];
    if rt.arg(2, &mut name).is_ok_and(|n| name[..n] == b"vp8"[..]) {
        Codec::Vp8
    } else {
        Codec::H264
    }
}

// Writes a packet's line: what is above the next one.
fn write(
    rt: &HostRuntime,
    packet: &[u8],
    codec: Codec,
    above: Option<Above>,
) -> io::Result<Option<Above>> {
    let mut text = Text::new();
    let next = line::line(&mut text, packet, codec, above);
    Output::Stdout.write_all(rt, text.as_bytes())?;
    Ok(next)
}

// A proved loop has to end, and nothing says that a file does: no file has as many packets as this one has turns.
#[tactic(auto, using(stream::proofs::Steps::new_inside))]
fn show(
    rt: &HostRuntime,
    from: &mut File,
    codec: Codec,
    buf: &mut [u8; 131072],
) -> Result<(), Status> {
    let mut w = Window::new();
    let mut above = None;
    for turn in 0..u64::MAX {
        let next = stream::next_packet(from, buf, w);
        let Record::Packet { at, len } = next.found else {
            stream::ending(rt, next)?;
            return if turn == 0 {
                Err(Status::Nothing)
            } else {
                Ok(())
            };
        };
        let packet = stream::part(buf, at, len);
        above = write(rt, packet, codec, above).map_err(|e| status::unwritten(rt, e))?;
        w = next.window;
    }
    Ok(())
}

fn run(rt: &HostRuntime, buf: &mut [u8; 131072]) -> Result<(), Status> {
    let mut from = stream::open(rt, 1)?;
    show(rt, &mut from, codec_named(rt), buf)
}

fn main(rt: HostRuntime) -> ExitCode {
    let mut buf = [0u8; 131072];
    status::exit(run(&rt, &mut buf))
}
