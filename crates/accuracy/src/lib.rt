// Demand 3 as one claim over whole lists of calls: the definitions are in specs/, the proof in proofs/. There is no code here.

#![tactic(auto)]
