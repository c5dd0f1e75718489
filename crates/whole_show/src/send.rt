// Units in frames through a fresh sender, and its payloads as packets.
use crate::buffers::Buffers;
use crate::show::Show;
use crate::strings::{Full, Strings};
use crate::units::PREFIX;
use h264::H264Payloader;
use header::Header;

// The sender's source.
pub const SOURCE: u32 = 0x2468ACE0;

// What the sender sent.
#[derive(Drop)]
pub struct Sent {
    // in order
    pub packets: Strings,
    // how many units it said were dropped for the mtu
    pub units_dropped: usize,
    // how many pairs of parameter sets it said were dropped for the mtu
    pub pairs_dropped: usize,
}

impl Sent {
    pub fn new() -> Sent {
        Sent {
            packets: Strings::new(),
            units_dropped: 0,
            pairs_dropped: 0,
        }
    }
}

// A packet: "version 2, no padding, extensions or CSRCs". Where it is refused it has no bytes.
fn packet(
    number: u16,
    time: u32,
    marker: bool,
    payload: &[u8],
    packets: &mut Strings,
) -> Result<(), Full> {
    let mut header = Header::default();
    header.version = 2;
    header.marker = marker;
    header.payload_type = 96;
    header.sequence_number = number;
    header.timestamp = time;
    header.ssrc = SOURCE;
    // No mtu is above 400, and the header takes 12.
    let mut bytes = [0; 512];
    if let Ok(n) = packet::marshal_to(header, payload, &mut bytes) {
        packets.extend(bytes.get(..n).unwrap_or(b""))?;
    }
    packets.end()
}

// Whether a payload goes on with a unit: it is an FU-A without the start bit.
fn goes_on(payload: &[u8]) -> bool {
    2 <= payload.len() && payload[0] % 32 == 28 && payload[1] < 128
}

// The payloads of a frame as packets, the marker on the last, the time that of their group's first.
fn put_all(show: &Show, out: &[u8], ends: &[usize], packets: &mut Strings) -> Result<(), Full> {
    let mut first = 0;
    let mut from = 0;
    for (k, end) in ends.iter().enumerate() {
        let payload = out.get(from..*end).unwrap_or(b"");
        let i = packets.len();
        if !goes_on(payload) {
            first = i;
        }
        packet(
            show.number_of(i),
            show.time_of(first),
            k + 1 == ends.len(),
            payload,
            packets,
        )?;
        from = *end;
    }
    Ok(())
}

// Frame f: frames have one and three units, in turn. Of its first start code a zero is left out, or all of it now and then where the
// frame is one unit.
fn frame(units: &Strings, f: u16) -> &[u8] {
    let f = usize::from(f);
    let first = f / 2 * 4 + f % 2;
    let start = if f % 4 == 0 { PREFIX.len() } else { f % 2 };
    units
        .span(first, first + 1 + f % 2 * 2)
        .and_then(|frame| frame.get(start..))
        .unwrap_or(b"")
}

// A frame through the sender, and its packets behind those before.
fn give(
    sender: H264Payloader,
    show: &Show,
    frame: &[u8],
    out: &mut [u8],
    ends: &mut [usize],
    sent: &mut Sent,
) -> Result<H264Payloader, Full> {
    let step = sender.payload(usize::from(show.mtu), frame, out, ends);
    let answer = step.answer;
    match answer {
        Ok(written) => {
            let ends = ends.get(..written.packets).unwrap_or(&[]);
            put_all(show, out, ends, &mut sent.packets)?;
            sent.units_dropped = sent.units_dropped.wrapping_add(written.units_dropped);
            sent.pairs_dropped = sent.pairs_dropped.wrapping_add(written.pairs_dropped);
            Ok(step.sender)
        }
        Err(_) => Ok(sender),
    }
}

// The frames of a show.
pub fn send(
    show: &Show,
    units: &Strings,
    buffers: &mut Buffers,
    sent: &mut Sent,
) -> Result<(), Full> {
    let mut sender = H264Payloader::new();
    for f in 0..show.frames() {
        let frame = frame(units, f);
        sender = give(
            sender,
            show,
            frame,
            &mut buffers.out,
            &mut buffers.ends,
            sent,
        )?;
    }
    Ok(())
}
