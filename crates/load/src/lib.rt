// How many routes each link carries and each port begins: specs/ and proofs/ are what this crate is for, and it has no function.

#![tactic(auto)]
