// The calls for C and Rust: exported functions over numbers, slices and `#[repr(C)]` records.
//
// Each makes one call of the library and lays its answer out in a record: a refusal's number and what it carries, or 0, then
// the values, and beside them the state or the header. A slice is a pointer and a count. include/rtp_rattle.h declares them all.
// Stays: each function and each record has its own name and shape for C, also where two are alike; a flag stands beside its value, an array beside its count.
#![tactic(auto)]

pub mod refused; // refused.rt: a refusal in a record
pub mod rtp_header; // rtp_header.rt: the header read, sized, written
pub mod rtp_extension; // rtp_extension.rt: its extension elements set, deleted, got, listed
pub mod rtp_packet; // rtp_packet.rt: the packet read, sized, written
pub mod rtp_parts; // rtp_parts.rt: headers and packets in parts, so that no record is copied
pub mod rtp_h264; // rtp_h264.rt: H.264 frames sent, payloads read
pub mod rtp_vp8; // rtp_vp8.rt: VP8 frames sent, payloads read
pub mod rtp_joiner; // rtp_joiner.rt: the joiner opened, brought up to date, closed
pub mod rtp_sizes; // rtp_sizes.rt: how many bytes each record has
