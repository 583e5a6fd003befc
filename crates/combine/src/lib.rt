// The definitions that loops are stated by, and their laws: specs/ and proofs/ are what this crate is for, and it has no function.

#![tactic(auto)]
