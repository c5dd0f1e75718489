// Senders with nothing saved: a row of a list brings its sets with it.
use crate::tell;
use h264::{H264Payloader, LentPayloader};
use std::io;

const FRAME: [u8; 6] = *b"\x00\x00\x01\x65\x01\x02";

fn by_value() -> usize {
    let mut out = [0u8; 8];
    let mut ends = [0usize; 2];
    let sent = H264Payloader::new().payload(3, &FRAME, &mut out, &mut ends);
    sent.answer.map_or(0, |written| written.packets)
}

fn lent() -> usize {
    let mut sps = [0x67u8; 1024];
    let mut pps = [0x68u8; 1024];
    let mut out = [0u8; 8];
    let mut ends = [0usize; 2];
    let sender = LentPayloader::new();
    let sent = sender.payload(&mut sps, &mut pps, 3, &FRAME, &mut out, &mut ends);
    sent.answer.map_or(0, |written| written.packets)
}

pub fn all(rt: &HostRuntime) -> io::Result<()> {
    tell(
        rt,
        &[
            ("packets of a frame from a fresh h264 sender", by_value()),
            (
                "packets of a frame from a fresh h264 sender, bytes in its lent buffers",
                lent(),
            ),
        ],
    )
}
