// H.264 reading against RFC 6184: theorems alone. specs/ says what is asked of a reader, proofs/Main.antt what is proved. There is no code here.
#![tactic(auto)]
