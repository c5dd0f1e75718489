// The RTP packet with its header as RFC 3550 and RFC 8285 have them: definitions in specs/, theorems on them in proofs/. There is no code here.
#![tactic(auto)]
