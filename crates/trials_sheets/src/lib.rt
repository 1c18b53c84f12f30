//! Tests of pages in memory, by the public names of `pl_sheets`. There is nothing else here, since
//! a crate with tests of its own is proved twice.
#![tactic(auto)]

#[cfg(test)]
mod memory;
#[cfg(test)]
mod sheets;
