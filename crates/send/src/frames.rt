// The access units of a file, one after the other.
ghost use Rattle.std.specs.Prelude.{length};
ghost use Rattle.stream.specs.Window.{Within};

use crate::access;
use std::fs::File;
use stream::status::Status;
use stream::{Next, Window, status};

// Where an access unit lies in the buffer.
#[derive(Clone, Copy)]
pub struct Frame {
    pub at: usize,
    pub len: usize,
}

// The first access unit of a window; all that is left where the file ends with it. None where none ends in these bytes or, where the file
// does, none begins there.
fn first_in(buf: &[u8], w: Window) -> Next<Option<Frame>>
    requires { Within w (length buf.now) }
    ensures { Within result.window (length buf.now) }
{
    match access::first_len(&buf[w.at..w.end], w.ended.is_some()) {
        Some(len) => Next {
            window: w.from(w.at + len),
            found: Some(Frame { at: w.at, len }),
        },
        None => Next {
            window: w,
            found: None,
        },
    }
}

// The next access unit of a file, behind one more read where the window has none that is whole.
// Stays: a function beside `stream::next_packet`, since one for both would take the search as a closure, by clauses longer than this body.
pub fn next_frame(from: &mut File, buf: &mut [u8; 3145728], w: Window) -> Next<Option<Frame>>
    requires { Within w 3145728 }
    ensures { Within result.window 3145728 }
{
    let here = first_in(buf, w);
    if here.found.is_some() || w.ended.is_some() {
        return here;
    }
    let fresh = stream::refill(from, buf, w);
    first_in(buf, fresh)
}

// How a file ended, or what is too long in it, where a window has no access unit.
pub fn ending(rt: &HostRuntime, w: Window) -> Result<(), Status> {
    match w.ended {
        Some(Err(e)) => Err(status::unread(rt, e)),
        _ if w.at == w.end => Ok(()),
        Some(Ok(())) => Err(Status::NoCode),
        None => Err(Status::Long),
    }
}
