// The night sheet that is written from a hall, its table and a list of packets: specs/ and proofs/ are what this crate is for, and it has no
// function.

#![tactic(auto)]
