// The parameter sets that wait to be sent, by where they lie.
ghost use Rattle.std.specs.Prelude.{◌≡◌, cond, ◌&&◌, ◌-◌, ◌≤◌, ltb, Some, None};
ghost use Rattle.wire.specs.Part.{splice};
ghost use Rattle.h264_walk.specs.Waiting.{bytes_of, Lying, nothing_waits};

// Where a parameter set lies.
#[derive(Clone, Copy)]
pub struct Lies {
    // its place in the frame; none where it was saved before this frame, and stands in front of its buffer
    pub at: Option<usize>,
    // how many bytes it has, 0 to 1,024; 0 for none
    // Stays: length 0 for none, as in the records that C sees.
    pub len: usize,
}

impl Lies {
    // A set that was saved before the frame.
    pub fn saved(len: usize) -> Lies
        ensures { result ≡ record { at = None; len = len } }
    {
        Lies { at: None, len }
    }

    // A unit of the frame.
    pub fn unit(start: usize, end: usize) -> Lies
        requires { start ≤ end }
        ensures { result ≡ record { at = Some start; len = end - start } }
    {
        Lies {
            at: Some(start),
            len: end - start,
        }
    }

    // The set's bytes: a part of its buffer, or of the frame.
    pub fn bytes<'a>(self, held: &'a [u8], frame: &'a [u8]) -> &'a [u8]
        requires { Lying held.now frame.now self }
        ensures { result.now ≡ bytes_of held.now frame.now self }
    {
        match self.at {
            Some(at) => &frame[at..at + self.len],
            None => &held[..self.len],
        }
    }

    // Puts the set in front of its buffer, where it is to wait for the next frame. One that was saved before stands there already.
    pub fn store(self, frame: &[u8], held: &mut [u8; 1024])
        requires { Lying held.old frame.now self }
        ensures { held.new ≡ splice held.old 0 (bytes_of held.old frame.now self) }
    {
        if let Some(at) = self.at {
            wire::copy_at(&frame[at..at + self.len], held, 0);
        }
    }
}

// Both sets.
#[derive(Clone, Copy)]
pub struct Waiting {
    // the sequence parameter set, which waits for a picture parameter set or for a unit to be sent before
    pub sps: Lies,
    // the picture parameter set, likewise
    pub pps: Lies,
}

impl Waiting {
    // No set waits.
    pub fn nothing() -> Waiting
        ensures { result ≡ nothing_waits }
    {
        Waiting {
            sps: Lies::saved(0),
            pps: Lies::saved(0),
        }
    }

    // The pair is forgotten where both sets wait.
    pub fn forget(self) -> Waiting
        ensures { result ≡ cond (ltb 0 self.sps.len && ltb 0 self.pps.len) nothing_waits self }
    {
        if 0 < self.sps.len && 0 < self.pps.len {
            return Waiting::nothing();
        }
        self
    }
}
