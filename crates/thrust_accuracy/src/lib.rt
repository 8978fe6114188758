// W-206: how near the level at a thrust is to the exact value of B.3. The definitions are in specs/, the proof in proofs/. There is no code here.

#![tactic(auto)]
