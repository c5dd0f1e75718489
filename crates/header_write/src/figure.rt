// RFC 3550's figure, written: the fixed part and the CSRCs.
ghost use Rattle.std.specs.Prelude.{◌≡◌, [], ◌+◌, ◌≤◌, length, take};
ghost use Rattle.wire.specs.Part.{splice, Put};
ghost use Rattle.header_write.specs.Fixed.{csrc_octets, first_for, second_for, fixed_for};

use crate::Fixed;

// Stays: the count of sources is asked to be at most 15 wherever it is written: the record that C sees holds any number.
impl Fixed {
    fn first_octet(self, csrc_count: usize) -> u8
        requires version_bound { self.version ≤ 3 }
        requires csrc_count_bound { csrc_count ≤ 15 }
        ensures { result ≡ first_for self.version self.padding self.extension csrc_count }
    {
        self.version * 64
            + u8::from(self.padding) * 32
            + u8::from(self.extension) * 16
            + csrc_count as u8
    }

    fn second_octet(self) -> u8
        requires { self.payload_type ≤ 127 }
        ensures { result ≡ second_for self.marker self.payload_type }
    {
        u8::from(self.marker) * 128 + self.payload_type
    }

    // The fixed part, at the buffer's front.
    pub(crate) fn put(self, buf: &mut [u8], csrc_count: usize)
        requires version_bound { (self.version ≤ 3) × (self.payload_type ≤ 127) }
        requires csrc_count_bound { csrc_count ≤ 15 }
        requires room { 12 ≤ length buf.old }
        ensures { buf.new ≡ splice buf.old 0 (fixed_for (first_for self.version self.padding self.extension csrc_count) (second_for self.marker self.payload_type) self.sequence_number self.timestamp self.ssrc []) }
    {
        buf[0] = self.first_octet(csrc_count);
        buf[1] = self.second_octet();
        wire::put_u16(buf, 2, self.sequence_number);
        wire::put_u32(buf, 4, self.timestamp);
        wire::put_u32(buf, 8, self.ssrc);
    }
}

// The sources, each behind the other.
pub(crate) fn put_csrcs(buf: &mut [u8], start: usize, csrc: &[u32]) -> usize
    requires { start + length (csrc_octets csrc.now) ≤ length buf.old }
    ensures { Put buf.old start (csrc_octets csrc.now) result buf.new }
{
    let mut at = start;
    for source in csrc {
        wire::put_u32(buf, at, *source);
        at += 4;
    }
    at
}
