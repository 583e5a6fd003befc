// A spoiled night sheet rebuilt, and what was changed in it: specs/ and proofs/ are what this crate is for, and it has no function.

#![tactic(auto)]
