//! Which pages a change of items bears on: the views of all others stay as they were. It follows
//! from the definitions alone, and stands in `proofs/`. There is no code here.
#![tactic(auto)]
