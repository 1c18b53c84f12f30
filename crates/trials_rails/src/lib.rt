//! Tests of rails, by their public names. There is nothing else here, since a crate with tests of
//! its own is proved twice.
#![tactic(auto)]

#[cfg(test)]
mod calls;
#[cfg(test)]
mod changes;
#[cfg(test)]
mod links;
#[cfg(test)]
mod stores;
