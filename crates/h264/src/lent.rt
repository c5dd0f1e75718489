// The sender whose parameter sets lie in two lent buffers, so that nothing of their size goes by value: for hosts that send a frame a call.
ghost use Rattle.std.specs.Prelude.{◌≡◌};
ghost use Rattle.h264.specs.Payload.{left_lent, lent_of};

use crate::deliver_frame::deliver;
use crate::send::Sent;

// How many bytes in front of each lent buffer are a parameter set that waits to be sent. The host leaves both buffers alone between calls.
#[repr(C)]
#[derive(Clone, Copy)]
pub struct LentPayloader {
    // of the sequence parameter set, 0 to 1,024; 0 for none
    pub sps_len: usize,
    // of the picture parameter set, likewise
    pub pps_len: usize,
}

impl LentPayloader {
    // A sender with nothing saved.
    pub fn new() -> LentPayloader
        ensures { result ≡ record { sps_len = 0; pps_len = 0 } }
    {
        LentPayloader {
            sps_len: 0,
            pps_len: 0,
        }
    }

    // The payloads of a frame, each of at most mtu bytes, and how much was dropped for that. A set that waits then stands in front of its
    // buffer; the bytes behind it stay.
    pub fn payload(
        self,
        sps: &mut [u8; 1024],
        pps: &mut [u8; 1024],
        mtu: usize,
        frame: &[u8],
        out: &mut [u8],
        ends: &mut [usize],
    ) -> Sent<LentPayloader>
        ensures { left_lent result sps.new pps.new out.new ends.new ≡
            lent_of (record { sender = self; sps = sps.old; pps = pps.old }) mtu
            frame.now out.old ends.old }
    {
        match deliver(sps, self.sps_len, pps, self.pps_len, frame, mtu, out, ends) {
            Ok(delivered) => {
                let waiting = delivered.waiting;
                waiting.sps.store(frame, sps);
                waiting.pps.store(frame, pps);
                Sent {
                    sender: LentPayloader {
                        sps_len: waiting.sps.len,
                        pps_len: waiting.pps.len,
                    },
                    answer: Ok(delivered.written),
                }
            }
            Err(e) => Sent {
                sender: self,
                answer: Err(e),
            },
        }
    }
}
