//! Laws of the machine: what holds of each step and of each run of steps, by the definitions
//! alone. They stand in `proofs/`. There is no code here.
#![tactic(auto)]
