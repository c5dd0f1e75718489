// VP8 over RTP, by codecs/vp8/mod.rs of rtp 0.17.2 and RFC 7741: a frame cut into payloads, and a
// payload's descriptor read.
#![tactic(auto)]

pub use vp8_read::{Vp8Depacketized, Vp8Packet, is_partition_head, is_partition_tail};
pub use vp8_send::{Vp8Payloaded, Vp8Payloader, Vp8Sent};
