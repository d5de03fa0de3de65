// The memory seen as theory's abstract machine, and what a call must show of its words: see specs/ and proofs/. There is no code here.
#![tactic(auto)]
