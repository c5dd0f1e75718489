// A file in a buffer: the part of it that is read and not taken yet.
ghost use Rattle.std.specs.Prelude.{◌≡◌, ◌≤◌, length};
ghost use Rattle.stream.specs.Window.{Within, Refilled, nothing_read, from as window_from};

use std::fs::File;
use std::io;
use std::io::Read;

#[derive(Clone, Copy)]
pub struct Window {
    // the bytes of the buffer from `at` up to `end` are read, and not taken yet
    pub at: usize,
    pub end: usize,
    // how the file ended behind them, where it did: no byte follows, or a read failed
    pub ended: Option<io::Result<()>>,
}

impl Window {
    // Before the first read.
    pub fn new() -> Window
        ensures { result ≡ nothing_read }
    {
        Window {
            at: 0,
            end: 0,
            ended: None,
        }
    }

    // All before a place is taken.
    pub fn from(self, at: usize) -> Window
        ensures { result ≡ window_from at self }
    {
        Window { at, ..self }
    }
}

// What was read into a buffer.
#[derive(Clone, Copy)]
struct Got {
    // how many bytes stand at its start
    count: usize,
    // how the file ended behind them, where it did
    ended: Option<io::Result<()>>,
}

// Reads until the buffer is full, the file ends or a read fails.
// Stays: a loop, since `read_exact` does not say how many bytes came before the end or a failure.
fn read_full(from: &mut File, buf: &mut [u8]) -> Got
    ensures { result.count ≤ length buf.new }
{
    let mut count = 0;
    while count < buf.len() {
        let ended = match from.read(&mut buf[count..]) {
            Ok(0) => Ok(()),
            Ok(n) => {
                count += n;
                continue;
            }
            Err(e) => Err(e),
        };
        return Got {
            count,
            ended: Some(ended),
        };
    }
    Got { count, ended: None }
}

// Moves what is not taken yet to the front, and reads on behind it until the buffer is full, the file ends or it cannot be read on.
pub fn refill(from: &mut File, buf: &mut [u8], w: Window) -> Window
    requires { Within w (length buf.old) }
    ensures { Refilled w buf.old result buf.new }
{
    buf.copy_within(w.at..w.end, 0);
    let kept = w.end - w.at;
    let got = read_full(from, &mut buf[kept..]);
    Window {
        at: 0,
        end: kept + got.count,
        ended: got.ended,
    }
}
