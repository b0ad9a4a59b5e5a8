// The theorems of this crate are about the definition, and stand in proofs/ (README.md). It has no code.
#![tactic(auto)]
