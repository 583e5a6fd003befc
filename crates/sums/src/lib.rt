// Sums over a range of numbers, and how many of them pass a test: specs/ and proofs/ are what this crate is for, and it has no function.

#![tactic(auto)]
