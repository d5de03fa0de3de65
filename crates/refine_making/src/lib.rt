// A make that is handed a block of a held segment keeps consistency and agrees with the abstract machine: see proofs/. No code here.
#![tactic(auto)]
