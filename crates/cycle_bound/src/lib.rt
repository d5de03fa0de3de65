// How long a cycle can be, by request No. 7: how many steps it takes at most, that no block is traced twice, and when a step waits. The statements
// stand in specs/, their proofs in proofs/. There is no code here.
#![tactic(auto)]
