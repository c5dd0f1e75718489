// The joiner with its buffers, for any reader, codec, prefix and note of the run: definitions in specs/, theorems in proofs/Main.antt. There
// is no code here.
#![tactic(auto)]
