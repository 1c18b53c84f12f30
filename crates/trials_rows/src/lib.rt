//! Worked rows of the definitions of all crates, worked out by hand: they stand in `proofs/`, a
//! file for each part. There is no code here.
#![tactic(auto)]
