// Whole cycles of the collector, call by call, computed from the model's definitions: see specs/ and proofs/. There is no code here.
#![tactic(auto)]
