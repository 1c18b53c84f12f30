//! Tests of the drill, by public names. There is nothing else here, since a crate with tests of its
//! own is proved twice.
#![tactic(auto)]

#[cfg(test)]
mod memory;
#[cfg(test)]
mod stops;
#[cfg(test)]
mod summary;
#[cfg(test)]
mod words;
