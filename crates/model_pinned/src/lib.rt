// What no other evaluated case pins of document 01, computed from the model's definitions: see specs/ and proofs/. There is no code here.
#![tactic(auto)]
