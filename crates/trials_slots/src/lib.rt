//! Tests of slots, by their public names. There is nothing else here, since a crate with tests of
//! its own is proved twice.
#![tactic(auto)]

#[cfg(test)]
mod arena;
#[cfg(test)]
mod changes;
#[cfg(test)]
mod fields;
#[cfg(test)]
mod header;
#[cfg(test)]
mod rows;
