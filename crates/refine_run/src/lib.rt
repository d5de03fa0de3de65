// The model's own run keeps the lengths of the regions and its promises, so that it is a list of calls: see proofs/. No code here.
#![tactic(auto)]
