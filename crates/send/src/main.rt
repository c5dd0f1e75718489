// send CLIP PACKETS MTU SOURCE FIRST TYPE [TICKS]: an Annex B file as RTP packets.
#![tactic(auto)]

mod access;
mod frames;
mod packets;

ghost use Rattle.std.specs.Prelude.{◌≡◌, ◌++◌, IfErr, OnOk};
ghost use Rattle.stream.specs.declared.status.Status.TheVariants.{Usage};
ghost use Rattle.send.specs.Account.{account_text};

use frames::Frame;
use h264::H264Payloader;
use packets::Sending;
use std::fmt;
use std::fmt::Write;
use std::process::ExitCode;
use stream::status::Status;
use stream::{Text, Window, argument, needed, status};

// The numbers among the arguments.
#[derive(Clone, Copy)]
struct Numbers {
    mtu: usize,
    source: u32,
    first: u16,
    payload_type: u8,
    ticks: u32,
}

fn arguments(rt: &HostRuntime) -> Result<Numbers, Status>
    ensures { IfErr result (λ status. status ≡ Usage) }
{
    let mtu = needed(rt, 3, 3, 65523)?;
    let source = needed(rt, 4, 0, 4294967295)?;
    let first = needed(rt, 5, 0, 65535)?;
    let payload_type = needed(rt, 6, 0, 127)?;
    let ticks = argument(rt, 7, 0, 4294967295)?.unwrap_or(3000);
    Ok(Numbers {
        mtu: mtu as usize,
        source: source as u32,
        first: first as u16,
        payload_type: payload_type as u8,
        ticks: ticks as u32,
    })
}

// The sending before its first packet; an error where an argument is wrong or a file is not opened.
fn first(rt: &HostRuntime) -> Result<Sending, Status> {
    let (numbers, files) = stream::open_files(rt, arguments(rt))?;
    Ok(Sending {
        mtu: numbers.mtu,
        source: numbers.source,
        payload_type: numbers.payload_type,
        ticks: numbers.ticks,
        from: files.from,
        to: files.to,
        sender: H264Payloader::new(),
        number: numbers.first,
        time: 0,
        frames: 0,
        packets: 0,
        units_dropped: 0,
        pairs_dropped: 0,
        pair_sent: false,
    })
}

// A proved loop has to end, and nothing says that a file does: no file has as many access units as this one has turns.
#[tactic(auto, using(stream::proofs::Steps::new_inside))]
fn play(
    rt: &HostRuntime,
    first: Sending,
    buf: &mut [u8; 3145728],
    out: &mut [u8; 3407872],
    ends: &mut [usize; 65536],
) -> Result<Sending, Status> {
    let mut w = Window::new();
    let mut sending = first;
    for _ in 0..u64::MAX {
        let next = frames::next_frame(&mut sending.from, buf, w);
        let Some(Frame { at, len }) = next.found else {
            frames::ending(rt, next.window)?;
            break;
        };
        sending = sending.send(rt, stream::part(buf, at, len), out, ends)?;
        w = next.window;
    }
    Ok(sending)
}

// What was sent, what was dropped, and the number after the last, by which a joiner is closed.
#[tactic(auto, using(stream::proofs::Words::written), unfolding(crate::specs::Account::account_text))]
fn write_account(text: &mut Text, s: &Sending) -> fmt::Result
    ensures { OnOk result (text.new.bytes ≡ text.old.bytes ++ account_text s.now) }
{
    write!(
        text,
        "access units {}\npackets {}\nunits dropped for the mtu {}\npairs dropped for the mtu {}\nend {}\n",
        s.frames, s.packets, s.units_dropped, s.pairs_dropped, s.number
    )
}

fn account(rt: &HostRuntime, s: Sending) -> Result<(), Status> {
    if s.packets == 0 {
        return Err(Status::Nothing);
    }
    let mut text = Text::new();
    let _ = write_account(&mut text, &s);
    let outcome = s.outcome();
    stream::finish(rt, text.as_str(), s.to)?;
    outcome
}

fn run(
    rt: &HostRuntime,
    buf: &mut [u8; 3145728],
    out: &mut [u8; 3407872],
    ends: &mut [usize; 65536],
) -> Result<(), Status> {
    let sending = first(rt)?;
    account(rt, play(rt, sending, buf, out, ends)?)
}

fn main(rt: HostRuntime) -> ExitCode {
    let mut buf = [0u8; 3145728];
    let mut out = [0u8; 3407872];
    let mut ends = [0usize; 65536];
    status::exit(run(&rt, &mut buf, &mut out, &mut ends))
}
