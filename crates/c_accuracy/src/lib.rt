// Demand 3 through C, in terms of the words and numbers that are lent: the definitions are in specs/, the proof in proofs/. There is no code here.

#![tactic(auto)]
