// A table of port codes as its codes count in a hall that is not full: specs/ and proofs/ are what this crate is for, and it has no function.

#![tactic(auto)]
