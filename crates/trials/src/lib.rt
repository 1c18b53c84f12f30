//! Tests of the layers below a store's session, by their public names: a module for each layer, but
//! for that of the gate. There is nothing else here, since a crate with tests of its own is proved
//! twice.
#![tactic(auto)]

#[cfg(test)]
mod base;
#[cfg(test)]
mod link;
#[cfg(test)]
mod rows;
#[cfg(test)]
mod score;
