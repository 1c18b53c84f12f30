//! Tests of files that are damaged, opened by `run`. There is nothing else here, since a crate with
//! tests of its own is proved twice.
#![tactic(auto)]

#[cfg(test)]
mod damage;
