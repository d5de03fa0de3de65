// The guarantee of the heap over whole lists of calls. Its statement stands in specs/Demand3.antt, its proof in proofs/. There is no code here.
#![tactic(auto)]
