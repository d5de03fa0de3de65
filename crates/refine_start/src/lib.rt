// The opening establishes consistency, and a start keeps it and agrees with the abstract machine: see proofs/. No code here.
#![tactic(auto)]
