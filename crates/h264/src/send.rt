// RTP payloads of H.264 frames: `H264Payloader` of the Rust.
//
// The state goes in by value and comes back beside the answer. What is sent goes into one output, packet behind packet, and
// their ends into a table.
ghost use Rattle.std.specs.Prelude.{◌≡◌};
ghost use Rattle.h264_put.specs.Groups.{nothing_saved};
ghost use Rattle.h264_walk.specs.Waiting.{bytes_of, Lying};
ghost use Rattle.h264.specs.Payload.{set_out, lay_out, left, payload_of};

use crate::deliver_frame::deliver;
use error::Error;
use h264_walk::Lies;

// A parameter set that waits to be sent.
// Stays: C sees the record: an array and how much of it counts.
#[repr(C)]
#[derive(Clone, Copy)]
pub struct ParameterSet {
    // its bytes, zeros behind them
    pub bytes: [u8; 1024],
    // how many they are, 0 to 1,024; 0 for none
    pub len: usize,
}

impl ParameterSet {
    // The set that waits then, in front, and zeros behind it.
    fn keep(&mut self, set: Lies, frame: &[u8])
        requires { Lying self.old.bytes frame.now set }
        ensures { self.new ≡ set_out (bytes_of self.old.bytes frame.now set) }
    {
        set.store(frame, &mut self.bytes);
        wire::fill_at(&mut self.bytes, set.len, 1024 - set.len, 0);
        self.len = set.len;
    }
}

#[repr(C)]
#[derive(Clone, Copy)]
pub struct H264Payloader {
    // the sequence parameter set that waits for a picture parameter set or for a unit to be sent before
    pub sps: ParameterSet,
    // the picture parameter set, likewise
    pub pps: ParameterSet,
}

impl H264Payloader {
    // A sender with nothing saved.
    pub fn new() -> H264Payloader
        ensures { result ≡ lay_out nothing_saved }
    {
        H264Payloader {
            sps: ParameterSet {
                bytes: [0u8; 1024],
                len: 0,
            },
            pps: ParameterSet {
                bytes: [0u8; 1024],
                len: 0,
            },
        }
    }

    // The payloads of a frame, each of at most mtu bytes, and how much was dropped for that.
    pub fn payload(
        mut self,
        mtu: usize,
        frame: &[u8],
        out: &mut [u8],
        ends: &mut [usize],
    ) -> Sent<H264Payloader>
        ensures { left result out.new ends.new ≡
            payload_of self mtu frame.now out.old ends.old }
    {
        let answer = match deliver(
            &self.sps.bytes,
            self.sps.len,
            &self.pps.bytes,
            self.pps.len,
            frame,
            mtu,
            out,
            ends,
        ) {
            Ok(delivered) => {
                self.sps.keep(delivered.waiting.sps, frame);
                self.pps.keep(delivered.waiting.pps, frame);
                Ok(delivered.written)
            }
            Err(e) => Err(e),
        };
        Sent {
            sender: self,
            answer,
        }
    }
}

// The payloads of a frame.
#[derive(Clone, Copy)]
pub struct Written {
    // how many packets
    pub packets: usize,
    // how many bytes they have together
    pub bytes: usize,
    // how many units were dropped for the mtu
    pub units_dropped: usize,
    // how many pairs of parameter sets were dropped for the mtu
    pub pairs_dropped: usize,
}

// An answer, beside the state after it: of either sender.
#[derive(Clone, Copy)]
pub struct Sent<S> {
    pub sender: S,
    pub answer: Result<Written, Error>,
}
