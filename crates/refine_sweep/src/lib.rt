// The collector's step in sweep keeps consistency and agrees with the abstract machine: see proofs/. No code here.
#![tactic(auto)]
