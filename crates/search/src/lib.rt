// A search by rounds over any adjacency, and what its marks mean: specs/ and proofs/ are what this crate is for, and it has no function.

#![tactic(auto)]
