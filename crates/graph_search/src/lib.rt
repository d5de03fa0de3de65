// The search of a finite graph with a stack and visited bits: definitions in specs/, laws in proofs/. There is no code here.
#![tactic(auto)]
