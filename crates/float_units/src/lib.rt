// How far a result in f64 is from the exact value, counted in units of the smallest f64. The definitions are in specs/, the laws in proofs/. There is no code here.

#![tactic(auto)]
