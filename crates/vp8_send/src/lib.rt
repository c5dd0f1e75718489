// Cutting a VP8 frame into payloads: `Vp8Payloader` of codecs/vp8/mod.rs of rtp 0.17.2.
#![tactic(auto)]

ghost use Rattle.std.specs.Prelude.{◌≡◌, true, ◌++◌, ◌+◌, ◌<◌, ◌≤◌, min, length};
ghost use Rattle.wire.specs.Part.{splice};
ghost use Rattle.vp8_send.specs.Send.{header_size, start_octet, descriptor_of, parts_of, headed, packets_of, advanced, sent_all, delivered, payloaded};
ghost use Rattle.vp8_send.specs.SendAnswer.{refused_by, sent_by, sending};
ghost use Rattle.vp8_send.specs.Asked.{InDomain, ToWrite};

use error::Error;

#[repr(C)]
#[derive(Clone, Copy)]
pub struct Vp8Payloader {
    // whether each payload shows the picture id
    pub enable_picture_id: bool,
    // the next frame's id, 0 to 32,767; it advances also where it is not shown
    pub picture_id: u16,
}

#[derive(Clone, Copy)]
pub struct Vp8Sent {
    // how many payloads were written
    pub packets: usize,
    // their bytes in all
    pub bytes: usize,
}

#[derive(Clone, Copy)]
pub struct Vp8Payloaded {
    // the payloader for the next frame
    pub payloader: Vp8Payloader,
    pub answer: Result<Vp8Sent, Error>,
}

impl Vp8Payloader {
    // Cuts the frame into payloads of at most mtu bytes, one behind the other in out; ends says
    // where each ends.
    // Stays: frame, output and table of ends by themselves, as the caller lends them.
    #[tactic(auto, using(crate::proofs::Deliver::long_frame, crate::proofs::Deliver::large_mtu, crate::proofs::Deliver::large_id, crate::proofs::Deliver::in_domain))]
    pub fn payload(
        self,
        mtu: usize,
        frame: &[u8],
        out: &mut [u8],
        ends: &mut [usize],
    ) -> Vp8Payloaded
        ensures { sending result out.new ends.new ≡ payloaded self mtu frame.now out.old ends.old }
    {
        if 16777216 < frame.len() || 65535 < mtu || 32767 < self.picture_id {
            return self.refused(Error::OutsideDomain);
        }
        self.deliver(mtu, frame, out, ends)
    }

    // All payloads are counted before the first is written: a refusal changes nothing.
    fn deliver(self, mtu: usize, frame: &[u8], out: &mut [u8], ends: &mut [usize]) -> Vp8Payloaded
        requires { InDomain self mtu frame.now }
        ensures { sending result out.new ends.new ≡ delivered self (packets_of self mtu frame.now) out.old ends.old }
    {
        let header = self.header_size();
        if frame.is_empty() || mtu <= header {
            return self.sent(0, 0);
        }
        let size = mtu - header;
        let packets = parts::count(frame.len(), size);
        if out.len() < frame.len() + packets * header || ends.len() < packets {
            return self.refused(Error::ErrBufferTooSmall);
        }
        self.write(size, frame, out, ends)
    }

    fn refused(self, error: Error) -> Vp8Payloaded
        ensures { result ≡ refused_by self error }
    {
        Vp8Payloaded {
            payloader: self,
            answer: Err(error),
        }
    }

    fn sent(self, packets: usize, bytes: usize) -> Vp8Payloaded
        ensures { result ≡ sent_by self packets bytes }
    {
        Vp8Payloaded {
            payloader: self,
            answer: Ok(Vp8Sent { packets, bytes }),
        }
    }

    // After 0x7FFF comes 0.
    #[tactic(auto, unfolding(crate::specs::Send::advanced))]
    fn next(mut self) -> Vp8Payloader
        requires { self.picture_id ≤ 32767 }
        ensures { result ≡ advanced self }
    {
        self.picture_id = (self.picture_id + 1) % 32768;
        self
    }

    // The tests of the code are those of the definition.
    #[tactic(auto, unfolding(crate::specs::Send::header_size))]
    fn header_size(self) -> usize
        ensures { result ≡ header_size self }
    {
        if self.enable_picture_id {
            if self.picture_id < 128 { 3 } else { 4 }
        } else {
            1
        }
    }

    // Writes all payloads, each size bytes of the frame, the last perhaps fewer.
    // Stays: an id of 15 bits is asked for by each method that writes it or counts on, and no type of its own: the record is C's, and holds any number.
    fn write(self, size: usize, frame: &[u8], out: &mut [u8], ends: &mut [usize]) -> Vp8Payloaded
        requires { ToWrite self size frame.now out.old ends.old }
        ensures { sending result out.new ends.new ≡ sent_all self (headed self true (parts_of size frame.now)) out.old ends.old }
    {
        // Stays: n is what the answer counts, and that it is what `deliver` counted before is another proof.
        let mut n = 0;
        let mut start = true;
        let mut at = 0;
        for part in frame.chunks(size) {
            at = self.put(start, part, out, at);
            ends[n] = at;
            n += 1;
            start = false;
        }
        self.next().sent(n, at)
    }

    // One payload: the descriptor, and the part behind it. Hands back where it ends.
    fn put(self, start: bool, part: &[u8], out: &mut [u8], at: usize) -> usize
        requires { (self.picture_id ≤ 32767) × (at + length (descriptor_of self start ++ part.now) ≤ length out.old) }
        ensures { (result ≡ at + length (descriptor_of self start ++ part.now)) × (out.new ≡ splice out.old at (descriptor_of self start ++ part.now)) }
    {
        let behind = self.put_descriptor(start, out, at);
        wire::copy_at(part, out, behind);
        behind + part.len()
    }

    //       0 1 2 3 4 5 6 7                      0 1 2 3 4 5 6 7
    //      +-+-+-+-+-+-+-+-+                   +-+-+-+-+-+-+-+-+
    //      |X|R|N|S|R| PID | (REQUIRED)        |X|R|N|S|R| PID | (REQUIRED)
    //      +-+-+-+-+-+-+-+-+                   +-+-+-+-+-+-+-+-+
    // X:   |I|L|T|K| RSV   | (OPTIONAL)   X:   |I|L|T|K| RSV   | (OPTIONAL)
    //      +-+-+-+-+-+-+-+-+                   +-+-+-+-+-+-+-+-+
    // I:   |M| PictureID   | (OPTIONAL)   I:   |M| PictureID   | (OPTIONAL)
    //      +-+-+-+-+-+-+-+-+                   +-+-+-+-+-+-+-+-+
    //                                          |   PictureID   |
    //                                          +-+-+-+-+-+-+-+-+
    //  S: Start of VP8 partition.  SHOULD be set to 1 when the first payload
    //     octet of the RTP packet is the beginning of a new VP8 partition,
    //     and MUST NOT be 1 otherwise.  The S bit MUST be set to 1 for the
    //     first packet of each encoded frame.
    fn put_descriptor(self, start: bool, out: &mut [u8], at: usize) -> usize
        requires { (self.picture_id ≤ 32767) × (at + length (descriptor_of self start) ≤ length out.old) }
        ensures { (result ≡ at + length (descriptor_of self start)) × (out.new ≡ splice out.old at (descriptor_of self start)) }
    {
        let s = start_octet(start);
        if !self.enable_picture_id {
            out[at] = s;
            return at + 1;
        }
        out[at] = 128 + s;
        out[at + 1] = 128;
        if self.picture_id < 128 {
            out[at + 2] = self.picture_id as u8;
            return at + 3;
        }
        wire::put_u16(out, at + 2, 32768 + self.picture_id);
        at + 4
    }
}

// Stays: whether a part is the first is told by where it lies, here and above, and no choice of the caller.
fn start_octet(start: bool) -> u8
    ensures { (result ≡ start_octet start) × (result ≤ 16) }
{
    if start { 16 } else { 0 }
}
