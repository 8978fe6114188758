// W-207: how near the correction behind the start of roll is to the exact value of B.14 or B.15. The definitions are in specs/, the proof in proofs/. There is no
// code here.

#![tactic(auto)]
