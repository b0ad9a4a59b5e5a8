// The passes program's input, read a byte at a time: theorems alone (specs/Machine.antt, proofs/).
#![tactic(auto)]
