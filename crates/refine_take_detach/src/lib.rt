// A make that takes a part or a free segment, and a detach that gives held ones back, keep consistency: see proofs/. No code here.
#![tactic(auto)]
