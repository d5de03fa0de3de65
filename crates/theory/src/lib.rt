// The rules of the collection cycle, the unbounded heap, and the collector argument on an abstract machine: see specs/ and proofs/.
// There is no code here.
#![tactic(auto)]
