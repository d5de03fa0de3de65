// Document 01's class and block cases, as rows of one table that is proved: see specs/ and proofs/. There is no code here.
#![tactic(auto)]
