// Reading the descriptor of a VP8 payload, and the partition tests: `Vp8Packet` of codecs/vp8/mod.rs of rtp 0.17.2.
#![tactic(auto)]

ghost use Rattle.std.specs.Prelude.{◌≡◌, ◌+◌, ◌<◌, ◌≤◌, length};
ghost use Rattle.error.specs.Said.{said};
ghost use Rattle.vp8_read.specs.Read.{set_required, set_flags, set_tid, set_key, with_flags, with_picture_id, with_tl0, with_layers, read_on, depacketized};
ghost use Rattle.vp8_read.specs.ReadAnswer.{stage_of, reading, keeping};
ghost use Rattle.vp8_read.specs.Partition.{partition_head};

use error::Error;

// The fields of the descriptors read so far: a field that a packet does not have keeps its value.
// Stays: C sees this record, so its flags are bytes.
#[repr(C)]
#[derive(Clone, Copy, Default)]
pub struct Vp8Packet {
    // X: 1 where the extension octet is there
    pub x: u8,
    // N: 1 where the frame can be discarded
    pub n: u8,
    // S: 1 at the start of a VP8 partition
    pub s: u8,
    // PID: the partition's index, 0 to 7
    pub pid: u8,
    // I: 1 where the picture id is there; any other number counts as 0, here and in l, t, k
    pub i: u8,
    // L: 1 where tl0_pic_idx is there
    pub l: u8,
    // T: 1 where tid and y are there
    pub t: u8,
    // K: 1 where key_idx is there
    pub k: u8,
    // 7 or 15 bits: 0 to 32,767
    pub picture_id: u16,
    // index of the temporal base layer, 0 to 255
    pub tl0_pic_idx: u8,
    // temporal layer, 0 to 3
    pub tid: u8,
    // layer sync bit
    pub y: u8,
    // index of the temporal key frame, 0 to 31
    pub key_idx: u8,
}

#[derive(Clone, Copy)]
pub struct Vp8Depacketized {
    // the fields as they are now
    pub packet: Vp8Packet,
    // where the VP8 payload begins: it is all from there on, and not empty
    pub read: Result<usize, Error>,
}

// A descriptor while it is read.
// Stays: that `at` lies within the bytes is asked for by each method and no invariant, since a reader at the end of its bytes is what `short` is for.
#[derive(Clone, Copy)]
struct Reader<'a> {
    // the fields so far
    packet: Vp8Packet,
    // the packet's bytes, all of them
    bytes: &'a [u8],
    // the place of the next byte
    at: usize,
}

//      0 1 2 3 4 5 6 7                      0 1 2 3 4 5 6 7
//     +-+-+-+-+-+-+-+-+                   +-+-+-+-+-+-+-+-+
//     |X|R|N|S|R| PID | (REQUIRED)        |X|R|N|S|R| PID | (REQUIRED)
//     +-+-+-+-+-+-+-+-+                   +-+-+-+-+-+-+-+-+
// X:  |I|L|T|K| RSV   | (OPTIONAL)   X:   |I|L|T|K| RSV   | (OPTIONAL)
//     +-+-+-+-+-+-+-+-+                   +-+-+-+-+-+-+-+-+
// I:  |M| PictureID   | (OPTIONAL)   I:   |M| PictureID   | (OPTIONAL)
//     +-+-+-+-+-+-+-+-+                   +-+-+-+-+-+-+-+-+
// L:  |   TL0PICIDX   | (OPTIONAL)        |   PictureID   |
//     +-+-+-+-+-+-+-+-+                   +-+-+-+-+-+-+-+-+
// T/K:|TID|Y| KEYIDX  | (OPTIONAL)   L:   |   TL0PICIDX   | (OPTIONAL)
//     +-+-+-+-+-+-+-+-+                   +-+-+-+-+-+-+-+-+
//                                    T/K: |TID|Y| KEYIDX  | (OPTIONAL)
//                                         +-+-+-+-+-+-+-+-+
impl Vp8Packet {
    #[tactic(auto, unfolding(crate::specs::Read::put_required))]
    fn required(mut self, b: u8) -> Vp8Packet
        ensures { result ≡ set_required b self }
    {
        self.x = b / 128;
        self.n = b / 32 % 2;
        self.s = b / 16 % 2;
        self.pid = b % 8;
        self
    }

    #[tactic(auto, unfolding(crate::specs::Read::put_flags))]
    fn flags(mut self, b: u8) -> Vp8Packet
        ensures { result ≡ set_flags b self }
    {
        self.i = b / 128;
        self.l = b / 64 % 2;
        self.t = b / 32 % 2;
        self.k = b / 16 % 2;
        self
    }

    #[tactic(auto, unfolding(crate::specs::Read::set_tid, crate::specs::Read::put_tid))]
    fn temporal(mut self, b: u8) -> Vp8Packet
        ensures { result ≡ set_tid b self }
    {
        if self.t != 1 {
            return self;
        }
        self.tid = b / 64;
        self.y = b / 32 % 2;
        self
    }

    #[tactic(auto, unfolding(crate::specs::Read::set_key, crate::specs::Read::put_key))]
    fn key(mut self, b: u8) -> Vp8Packet
        ensures { result ≡ set_key b self }
    {
        if self.k != 1 {
            return self;
        }
        self.key_idx = b % 32;
        self
    }

    // Reads the descriptor in front of a packet. Where it is refused at last, the fields read so
    // far are kept.
    #[tactic(auto, using(crate::proofs::Stages::long_packet, crate::proofs::Stages::large_id, crate::proofs::Stages::under_four, crate::proofs::Stages::four_or_more))]
    pub fn depacketize(self, packet: &[u8]) -> Vp8Depacketized
        ensures { reading result ≡ depacketized self packet.now }
    {
        if 65535 < packet.len() {
            return self.refused(Error::OutsideDomain);
        }
        if 32767 < self.picture_id {
            return self.refused(Error::OutsideDomain);
        }
        if packet.len() < 4 {
            return self.refused(Error::ErrShortPacket);
        }
        let first = Reader {
            packet: self.required(packet[0]),
            bytes: packet,
            at: 1,
        };
        first.flags().picture_id().read_on()
    }

    fn refused(self, error: Error) -> Vp8Depacketized
        ensures { reading result ≡ keeping self error }
    {
        Vp8Depacketized {
            packet: self,
            read: Err(error),
        }
    }
}

impl Reader<'_> {
    #[tactic(auto, using(crate::proofs::Stages::flags_no, crate::proofs::Stages::flags_at))]
    fn flags(self) -> Self
        requires { self.at < length self.bytes.now }
        ensures stage { stage_of result ≡ with_flags (stage_of self.entry) }
        ensures same { result.bytes ≡ self.entry.bytes }
        ensures place { result.at ≤ self.entry.at + 1 }
    {
        if self.packet.x != 1 {
            return self;
        }
        Reader {
            packet: self.packet.flags(self.bytes[self.at]),
            at: self.at + 1,
            ..self
        }
    }

    #[tactic(auto, using(crate::proofs::Stages::id_no, crate::proofs::Stages::id_short_at, crate::proofs::Stages::id_long_at), unfolding(crate::specs::Read::put_picture_id))]
    fn picture_id(self) -> Self
        requires { self.at + 2 ≤ length self.bytes.now }
        ensures { stage_of result ≡ with_picture_id (stage_of self.entry) }
    {
        let mut fields = self.packet;
        if fields.i != 1 {
            return self;
        }
        if self.bytes[self.at] < 128 {
            fields.picture_id = u16::from(self.bytes[self.at]);
            return Reader {
                packet: fields,
                at: self.at + 1,
                ..self
            };
        }
        fields.picture_id = wire::get_u16(self.bytes, self.at) % 32768;
        Reader {
            packet: fields,
            at: self.at + 2,
            ..self
        }
    }

    #[tactic(auto, using(crate::proofs::Stages::tl0_no, crate::proofs::Stages::tl0_at), unfolding(crate::specs::Read::put_tl0))]
    fn tl0_pic_idx(self) -> Self
        requires { self.at < length self.bytes.now }
        ensures { stage_of result ≡ with_tl0 (stage_of self.entry) }
    {
        let mut fields = self.packet;
        if fields.l != 1 {
            return self;
        }
        fields.tl0_pic_idx = self.bytes[self.at];
        Reader {
            packet: fields,
            at: self.at + 1,
            ..self
        }
    }

    #[tactic(auto, using(crate::proofs::Stages::layers_no, crate::proofs::Stages::layers_t_at, crate::proofs::Stages::layers_k_at))]
    fn layers(self) -> Self
        requires { self.at < length self.bytes.now }
        ensures { stage_of result ≡ with_layers (stage_of self.entry) }
    {
        let at = self.at;
        let fields = self.packet;
        // Stays: with `&&`, or a name for the byte, the record is copied, and reading takes a third longer.
        if fields.t != 1 {
            if fields.k != 1 {
                return self;
            }
        }
        // T and K read the same byte.
        Reader {
            packet: fields.temporal(self.bytes[at]).key(self.bytes[at]),
            at: at + 1,
            ..self
        }
    }

    // Behind the picture id: a byte has to be there before each of the two fields, and behind them.
    #[tactic(auto, using(crate::proofs::Stages::left_at, crate::proofs::Stages::none_at), unfolding(crate::specs::Read::third, crate::specs::Read::second, crate::specs::Read::read_on))]
    fn read_on(self) -> Vp8Depacketized
        ensures { reading result ≡ read_on (stage_of self.entry) }
    {
        if self.bytes.len() <= self.at {
            return self.short();
        }
        let second = self.tl0_pic_idx();
        if second.bytes.len() <= second.at {
            return second.short();
        }
        let third = second.layers();
        if third.bytes.len() <= third.at {
            return third.short();
        }
        Vp8Depacketized {
            packet: third.packet,
            read: Ok(third.at),
        }
    }

    fn short(self) -> Vp8Depacketized
        ensures { reading result ≡ keeping self.entry.packet Error.ErrShortPacket }
    {
        self.packet.refused(Error::ErrShortPacket)
    }
}

// Whether the packet begins a VP8 partition: S of its first byte.
#[tactic(auto, unfolding(crate::specs::Partition::partition_head))]
pub fn is_partition_head(payload: &[u8]) -> Result<bool, Error>
    ensures { said result ≡ partition_head payload.now }
{
    if 65535 < payload.len() {
        return Err(Error::OutsideDomain);
    }
    Ok(payload.first().is_some_and(|b| *b / 16 % 2 == 1))
}

// Whether the packet ends a frame: the RTP marker.
pub fn is_partition_tail(marker: bool) -> bool
    ensures { result ≡ marker }
{
    marker
}
