// Demand 3, from what is sent to what is handed out: definitions in specs/, the theorem in proofs/Main.antt. There is no code here.
#![tactic(auto)]
