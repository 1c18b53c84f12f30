//! Tests of rows in linked slots, by their public names. There is nothing else here, since a crate
//! with tests of its own is proved twice.
#![tactic(auto)]

#[cfg(test)]
mod changing;
#[cfg(test)]
mod opening;
