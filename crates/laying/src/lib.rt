// A value for each field of a format, the bytes that they make, and what reading them answers: specs/ and proofs/ are what this crate is for,
// and it has no function.

#![tactic(auto)]
