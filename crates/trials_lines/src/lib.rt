//! Tests of lines and their replies on a store in memory, by public names. There is nothing else
//! here, since a crate with tests of its own is proved twice; apart from the tests of runs, so that
//! it does not wait for them.
#![tactic(auto)]

#[cfg(test)]
mod days;
#[cfg(test)]
mod told;
#[cfg(test)]
mod tree;
