// join PACKETS CLIP [SOURCE FIRST [END]]: the H.264 units of a file of packets, as an Annex B file.
#![tactic(auto)]

mod account;
mod show;
mod units;

ghost use Rattle.std.specs.Prelude.{◌≡◌, IfErr};
ghost use Rattle.stream.specs.declared.status.Status.TheVariants.{Usage};

use account::{Account, Jump};
use joiner::{Closed, Joiner};
use show::Show;
use std::process::ExitCode;
use stream::status::Status;
use stream::{Record, Window, argument, status};

// The joiner that the arguments behind the files open, if they do; an error where one is wrong, END too.
fn arguments(rt: &HostRuntime) -> Result<Option<Joiner>, Status>
    ensures { IfErr result (λ status. status ≡ Usage) }
{
    let source = argument(rt, 3, 0, 4294967295)?.unwrap_or(0);
    let first = argument(rt, 4, 0, 65535)?;
    argument(rt, 5, 0, 65535)?;
    Ok(first.map(|number| Joiner::open(source as u32, number as u16)))
}

// The show before its first packet; an error where an argument is wrong or a file is not opened.
fn first(rt: &HostRuntime) -> Result<Show, Status> {
    let (joiner, files) = stream::open_files(rt, arguments(rt))?;
    Ok(Show {
        joiner,
        account: Account::new(),
        from: files.from,
        to: files.to,
    })
}

// A proved loop has to end, and nothing says that a file does: no file has as many packets as this one has turns.
#[tactic(auto, using(stream::proofs::Steps::new_inside))]
fn play(
    rt: &HostRuntime,
    first: Show,
    buf: &mut [u8; 131072],
    gather: &mut [u8; 3145728],
    out: &mut [u8; 3211264],
) -> Result<Show, Status> {
    let mut w = Window::new();
    let mut show = first;
    for _ in 0..u64::MAX {
        let next = stream::next_packet(&mut show.from, buf, w);
        let Record::Packet { at, len } = next.found else {
            stream::ending(rt, next)?;
            break;
        };
        show = show.join(rt, stream::part(buf, at, len), gather, out)?;
        w = next.window;
    }
    Ok(show)
}

// Closes at END, or right behind the last packet where END is not given, and writes the account. Where no packet was read, nothing is
// missed.
fn close(rt: &HostRuntime, show: Show) -> Result<(), Status> {
    let joiner = show.joiner.unwrap_or(Joiner::open(0, 0));
    let end = argument(rt, 5, 0, 65535)?.unwrap_or(u64::from(joiner.awaited));
    let closing = joiner.close(end as u16);
    let answer = closing.answer;
    let Ok(Closed { first, count }) = answer else {
        return Err(Status::WrongEnd);
    };
    let text = show
        .account
        .text(Jump { first, count }, closing.joiner.missed);
    stream::finish(rt, text.as_str(), show.to)?;
    show.account.outcome()
}

fn run(
    rt: &HostRuntime,
    buf: &mut [u8; 131072],
    gather: &mut [u8; 3145728],
    out: &mut [u8; 3211264],
) -> Result<(), Status> {
    let show = first(rt)?;
    close(rt, play(rt, show, buf, gather, out)?)
}

fn main(rt: HostRuntime) -> ExitCode {
    let mut buf = [0u8; 131072];
    let mut gather = [0u8; 3145728];
    let mut out = [0u8; 3211264];
    status::exit(run(&rt, &mut buf, &mut gather, &mut out))
}
