//! Tests of commits, of recoveries and of journals, by the public names of `pl_gate`. There is
//! nothing else here, since a crate with tests of its own is proved twice.
#![tactic(auto)]

#[cfg(test)]
mod gate;
