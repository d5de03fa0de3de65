// The calls that push on the trace stack, and the collector's steps in handshakes and mark, keep consistency and agree with the abstract
// machine: see proofs/. No code here.
#![tactic(auto)]
