// The packets of a file, one after the other.
ghost use Rattle.std.specs.Prelude.{◌≡◌, length};
ghost use Rattle.stream.specs.Records.{found_in, Stepped, ending_of};
ghost use Rattle.stream.specs.Window.{Within};

use crate::framing::{Record, record_at};
use crate::status;
use crate::status::Status;
use crate::window::{Window, refill};
use std::fs::File;

// A step through a file.
#[derive(Clone, Copy)]
pub struct Next<T> {
    // what is left: what was found is taken
    pub window: Window,
    pub found: T,
}

// The record where the window stands.
fn first_in(buf: &[u8], w: Window) -> Next<Record>
    requires { Within w (length buf.now) }
    ensures { (result ≡ found_in buf.now w) × Within result.window (length buf.now) }
{
    let found = record_at(&buf[..w.end], w.at);
    let window = match found {
        Record::Packet { at, len } => w.from(at + len),
        _ => w,
    };
    Next { window, found }
}

// The next record of a file, behind one more read where the window has none that is whole.
pub fn next_packet(from: &mut File, buf: &mut [u8; 131072], w: Window) -> Next<Record>
    requires { Within w 131072 }
    ensures { Stepped w buf.old buf.new result × Within result.window 131072 }
{
    let here = first_in(buf, w);
    if w.ended.is_some() || matches!(here.found, Record::Packet { .. }) {
        return here;
    }
    let fresh = refill(from, buf, w);
    first_in(buf, fresh)
}

// How a file ended behind its last packet.
pub fn ending(rt: &HostRuntime, last: Next<Record>) -> Result<(), Status>
    ensures { result ≡ ending_of last }
{
    if let Some(Err(e)) = last.window.ended {
        return Err(status::unread(rt, e));
    }
    match last.found {
        Record::Cut => Err(Status::Cut),
        _ => Ok(()),
    }
}
