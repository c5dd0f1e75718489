// H.264 over RTP (RFC 6184), carried over from codecs/h264/mod.rs of rtp 0.17.2: frames sent. `h264_packet` has the reader.
#![tactic(auto)]

mod deliver_frame; // deliver_frame.rt: what both senders do with a frame
mod lent; // lent.rt: the sender whose parameter sets lie in lent buffers
mod send; // send.rt: frames to payloads

pub use annexb::{Code, next_ind};
pub use h264_put::{AUD_NALU_TYPE, FILLER_NALU_TYPE, PPS_NALU_TYPE, SPS_NALU_TYPE};
pub use lent::LentPayloader;
pub use send::{H264Payloader, ParameterSet, Sent, Written};
