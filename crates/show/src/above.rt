// What a packet leaves open for the one below it: a fragment may follow that is of another time.
use header::Header;
use nal_read::Kind;

// A fragment of an H.264 unit, and not its last.
#[derive(Clone, Copy)]
pub struct Above {
    // its sender's SSRC
    pub source: u32,
    // its sequence number
    pub number: u16,
    // its timestamp
    pub time: u32,
}

impl Above {
    // Nothing, where a packet is no such fragment.
    pub fn of(h: Header, payload: &[u8]) -> Option<Above> {
        match nal_read::kind_of(payload) {
            Kind::Fragment {
                first: _,
                last: false,
                head: _,
            } => Some(Above {
                source: h.ssrc,
                number: h.sequence_number,
                time: h.timestamp,
            }),
            _ => None,
        }
    }

    // Whether a packet follows it without a gap, and bears another time. "All fragments of a unit carry one RTP timestamp" (E4).
    pub fn at_odds(self, h: Header) -> bool {
        h.ssrc == self.source
            && h.sequence_number == self.number.wrapping_add(1)
            && h.timestamp != self.time
    }
}
