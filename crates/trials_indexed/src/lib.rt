//! Tests that an engine gives to a query the very rows that are defined, by public names. There is
//! nothing else here, since a crate with tests of its own is proved twice.
#![tactic(auto)]

#[cfg(test)]
mod beside;
#[cfg(test)]
mod listed;
#[cfg(test)]
mod queries;
#[cfg(test)]
mod random;
