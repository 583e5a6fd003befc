// A header's layout as rows of fields, of any number, and its laws: specs/ and proofs/ are what this crate is for, and it has no function.

#![tactic(auto)]
