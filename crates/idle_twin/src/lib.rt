// A mutator's call over two memories of the same heap, one of them in idle, gives the same answer, unless it is refused 11 in a handshake; and it changes no
// phase: see specs/ and proofs/. No code here.
#![tactic(auto)]
