// The packets of access units, written to a file.
ghost use Rattle.std.specs.Prelude.{◌≡◌, length};

use error::Error;
use h264::H264Payloader;
use header::Header;
use std::fs::File;
use std::io;
use stream::status::Status;
use stream::{Output, status};

#[derive(Drop)]
pub struct Sending {
    // the most bytes of a payload: 3 to 65,523
    pub mtu: usize,
    pub source: u32,
    // 0 to 127
    pub payload_type: u8,
    // how far the time goes on with each access unit, at a clock of 90,000 a second
    pub ticks: u32,
    // the clip and the packets
    pub from: File,
    pub to: Output,
    // with the parameter sets saved so far
    pub sender: H264Payloader,
    // the number of the next packet
    pub number: u16,
    // the time of the next access unit
    pub time: u32,
    // how many were written
    pub frames: u64,
    pub packets: u64,
    // how many units were dropped for the mtu
    pub units_dropped: u64,
    // how many pairs of parameter sets were dropped for the mtu
    pub pairs_dropped: u64,
    // whether a pair was among the packets
    pub pair_sent: bool,
}

// Writes the record of one packet, or fails.
fn write_packet(
    rt: &HostRuntime,
    to: &mut Output,
    h: Header,
    payload: &[u8],
    record: &mut [u8],
) -> io::Result<()>
    requires { length «record».old ≡ 65537 }
{
    let length = packet::marshal_to(h, payload, &mut record[2..]);
    match length {
        Ok(n) => {
            let size = stream::frame(record, n);
            to.write_all(rt, stream::front(record, size))
        }
        Err(_) => Err(io::Error::from(io::ErrorKind::InvalidData)),
    }
}

// Whether a payload is a STAP-A, in which the sender puts a pair of parameter sets.
// Stays: the first byte of a STAP-A as the sender writes it, which the Rust has as a number too.
fn is_pair(payload: &[u8]) -> bool {
    payload.first() == Some(&0x78)
}

// What is told where the sender refuses an access unit.
fn status_of(e: Error) -> Status {
    match e {
        Error::OverLimits => Status::LongSet,
        _ => Status::Long,
    }
}

impl Sending {
    // What is told where all went well.
    pub fn outcome(&self) -> Result<(), Status> {
        if self.units_dropped != 0 || self.pairs_dropped != 0 {
            return Err(Status::Dropped);
        }
        if !self.pair_sent {
            return Err(Status::NoSets);
        }
        Ok(())
    }

    // Stays: field by field, since the fields that stay are most of them zeros of an array.
    fn header(&self, marker: bool) -> Header {
        let mut h = Header::default();
        h.version = 2;
        h.marker = marker;
        h.payload_type = self.payload_type;
        h.sequence_number = self.number;
        h.timestamp = self.time;
        h.ssrc = self.source;
        h
    }

    // One packet more.
    fn packet(
        mut self,
        rt: &HostRuntime,
        payload: &[u8],
        last: bool,
        record: &mut [u8; 65537],
    ) -> Result<Sending, Status> {
        let h = self.header(last);
        if let Err(e) = write_packet(rt, &mut self.to, h, payload, record) {
            return Err(status::unwritten(rt, e));
        }
        self.number = sequence::after(self.number);
        self.packets = self.packets.wrapping_add(1);
        self.pair_sent = self.pair_sent || is_pair(payload);
        Ok(self)
    }

    // The n packets of an access unit, as the sender left them. All bear its time, since a joiner refuses a fragment of another; the
    // marker stands on the last.
    fn write<'a>(
        self,
        rt: &HostRuntime,
        n: usize,
        out: &'a [u8],
        ends: &'a [usize],
    ) -> Result<Sending, Status> {
        let mut record = [0u8; 65537];
        let mut sending = self;
        let mut from = 0;
        for (i, end) in ends.iter().take(n).enumerate() {
            let to = from.max(*end);
            let payload = stream::part(out, from, to - from);
            sending = sending.packet(rt, payload, i + 1 == n, &mut record)?;
            from = to;
        }
        sending.time = sending.time.wrapping_add(sending.ticks);
        sending.frames = sending.frames.wrapping_add(1);
        Ok(sending)
    }

    // One access unit more.
    pub fn send(
        mut self,
        rt: &HostRuntime,
        frame: &[u8],
        out: &mut [u8; 3407872],
        ends: &mut [usize; 65536],
    ) -> Result<Sending, Status> {
        let sender = self.sender;
        let sent = sender.payload(self.mtu, frame, out, ends);
        let after = sent.sender;
        self.sender = after;
        let answer = sent.answer;
        match answer {
            Ok(written) => {
                let units = written.units_dropped as u64;
                let pairs = written.pairs_dropped as u64;
                self.units_dropped = self.units_dropped.wrapping_add(units);
                self.pairs_dropped = self.pairs_dropped.wrapping_add(pairs);
                self.write(rt, written.packets, out, ends)
            }
            Err(e) => Err(status_of(e)),
        }
    }
}
