// RFC 7741, "RTP Payload Format for VP8 Video", section 4.2: definitions alone, in specs/.
//
// Nothing runs here. The reader and the sender of crate vp8 are held to these definitions.
#![tactic(auto)]
