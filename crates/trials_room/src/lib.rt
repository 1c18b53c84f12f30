//! Tests of the slots of the longest store, and of one that finds no memory for more. There is
//! nothing else here, since a crate with tests of its own is proved twice.
#![tactic(auto)]

#[cfg(test)]
mod longest;
#[cfg(test)]
mod memory;
