// Document 01's whole case, the refusals, the order of the stacks and records of classes 13 and 14, computed from the model's definitions: see
// specs/ and proofs/. There is no code here.
#![tactic(auto)]
