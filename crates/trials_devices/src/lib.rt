//! Tests of desks in memory, of a file as a desk, and of sources, by their public names. There is
//! nothing else here, since a crate with tests of its own is proved twice.
#![tactic(auto)]

#[cfg(test)]
mod desk;
#[cfg(test)]
mod file;
#[cfg(test)]
mod source;
