// What the reader and the writer of crate `packet` do, held against RFC 3550: theorems in proofs/, and no code.
#![tactic(auto)]
