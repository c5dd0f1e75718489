// Packets in a file, framed by RFC 4571, section 2: each behind its length.
//
//  0                   1                   2                   3
//  0 1 2 3 4 5 6 7 8 9 0 1 2 3 4 5 6 7 8 9 0 1 2 3 4 5 6 7 8 9 0 1
// +-+-+-+-+-+-+-+-+-+-+-+-+-+-+-+-+-+-+-+-+-+-+-+-+-+-+-+-+-+-+-+-+
// |             LENGTH            |  RTP or RTCP packet ...       |
// +-+-+-+-+-+-+-+-+-+-+-+-+-+-+-+-+-+-+-+-+-+-+-+-+-+-+-+-+-+-+-+-+
ghost use Rattle.std.specs.Prelude.{◌≡◌, ◌+◌, ◌≤◌, length};
ghost use Rattle.wire.specs.Part.{splice, part};
ghost use Rattle.stream.specs.Framing.{framed, record_at};

// Stays: three cases and no `Result` of an `Option`, since an end and a cut alike are looked at again behind one more read.
#[derive(Clone, Copy)]
pub enum Record {
    // the packet is `len` bytes from `at` on; behind it comes the next record
    Packet { at: usize, len: usize },
    // the bytes end within a record
    Cut,
    // no byte is left
    End,
}

// The record that begins at a place.
#[tactic(auto, unfolding(crate::specs::Framing::record_at))]
pub fn record_at(s: &[u8], from: usize) -> Record
    ensures { result ≡ record_at s.now from }
{
    if s.len() <= from {
        return Record::End;
    }
    if s.len() < from + 2 {
        return Record::Cut;
    }
    let len = usize::from(wire::get_u16(s, from));
    if s.len() < from + 2 + len {
        return Record::Cut;
    }
    Record::Packet { at: from + 2, len }
}

// Puts the length before a packet of n bytes, which stands behind the first two: how many bytes the record has.
pub fn frame(s: &mut [u8], n: usize) -> usize
    requires { (n ≤ 65535) × (2 + n ≤ length s.old) }
    ensures { (result ≡ 2 + n) × (s.new ≡ splice s.old 0 (framed (part s.old 2 n))) }
{
    wire::put_u16(s, 0, n as u16);
    2 + n
}
