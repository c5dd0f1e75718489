// The worked packets that the paper marks with *: one table in specs/Table.antt, one statement in proofs/Worked.antt. There is no code here.
#![tactic(auto)]
