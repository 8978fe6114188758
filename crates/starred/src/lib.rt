// The starred cases of document 01 as one table: the definitions are in specs/, the proof in proofs/. There is no code here.

#![tactic(auto)]
