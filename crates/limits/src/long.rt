// "packets up to 65,535 bytes", and "a payload to be written up to 65,535": one byte more.
use crate::{number, tell};
use h264_packet::H264Packet;
use header::Header;
use std::io;
use vp8::Vp8Packet;

fn write(payload: &[u8]) -> u8 {
    let mut buf = [0u8; 16];
    number(packet::marshal_to(Header::default(), payload, &mut buf))
}

fn write_bare(payload: &[u8]) -> u8 {
    let mut buf = [0u8; 16];
    let fixed = Header::default().fixed();
    number(packet::marshal_bare(fixed, 0, 0, payload, &mut buf))
}

fn read_h264(payload: &[u8]) -> u8 {
    let mut gather = [0u8; 16];
    let mut out = [0u8; 16];
    let reader = H264Packet {
        is_avc: false,
        gathered: 0,
    };
    number(reader.depacketize(payload, &mut gather, &mut out).answer)
}

pub fn all(rt: &HostRuntime) -> io::Result<()> {
    let long = [0x41u8; 65536];
    let header = Header::default();
    let vp8 = Vp8Packet::default();
    tell(
        rt,
        &[
            ("header unmarshal", number(Header::unmarshal(&long).read)),
            ("packet unmarshal", number(packet::unmarshal(&long).read)),
            (
                "packet marshal_size",
                number(packet::marshal_size(header, &long)),
            ),
            ("packet marshal_to", write(&long)),
            ("packet marshal_bare", write_bare(&long)),
            ("h264 depacketize", read_h264(&long)),
            (
                "h264 is_partition_head",
                number(h264_packet::is_partition_head(&long)),
            ),
            ("vp8 depacketize", number(vp8.depacketize(&long).read)),
            (
                "vp8 is_partition_head",
                number(vp8::is_partition_head(&long)),
            ),
        ],
    )
}
