// Laws of the model's definitions that code and refinement both cite: see proofs/. There is no code here.
#![tactic(auto)]
