// Instances of the guarantee: document 01's whole case, the case of its refusals, cycles over no segment and over a part one, cycles whose steps are
// counted, and a detach with a segment of class 14 as lists of calls, and what the theorems say of them. See specs/ and proofs/. No code here.
#![tactic(auto)]
