// The calls that touch roots and fields, enter, attach and spawn keep consistency and agree with the abstract machine: see proofs/. No code here.
#![tactic(auto)]
