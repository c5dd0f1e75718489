// "A record to be written has version 0 to 3, payload type 0 to 127", "extensions_padding in any record up to 262,140": one more of each, in a
// header without CSRCs and elements, by the entry for such. And which records can be written: 1 for yes.
use crate::{number, tell};
use header::{Fixed, Header};
use std::io;

fn fixed(version: u8, payload_type: u8) -> Fixed {
    let mut fixed = Header::default().fixed();
    fixed.version = version;
    fixed.payload_type = payload_type;
    fixed
}

fn write_header(version: u8, payload_type: u8, padding: usize) -> u8 {
    let mut buf = [0u8; 16];
    number(header::marshal_bare(fixed(version, payload_type), 0, padding, &mut buf))
}

fn write_packet(version: u8, payload_type: u8, padding: usize) -> u8 {
    let mut buf = [0u8; 16];
    number(packet::marshal_bare(fixed(version, payload_type), 0, padding, b"\x41", &mut buf))
}

fn writable(version: u8) -> u8 {
    let mut header = Header::default();
    header.version = version;
    u8::from(header.is_writable())
}

pub fn all(rt: &HostRuntime) -> io::Result<()> {
    tell(
        rt,
        &[
            ("header marshal_bare, version 4", write_header(4, 0, 0)),
            (
                "header marshal_bare, payload type 128",
                write_header(0, 128, 0),
            ),
            (
                "header marshal_bare, padding 262,141",
                write_header(0, 0, 262141),
            ),
            ("packet marshal_bare, version 4", write_packet(4, 0, 0)),
            (
                "packet marshal_bare, payload type 128",
                write_packet(0, 128, 0),
            ),
            (
                "packet marshal_bare, padding 262,141",
                write_packet(0, 0, 262141),
            ),
            ("header is_writable, version 3", writable(3)),
            ("header is_writable, version 4", writable(4)),
        ],
    )
}
