//! Tests of items, by their public names. There is nothing else here, since a
//! crate with tests of its own is proved twice; apart from those of the other layers, so that none
//! waits for the others.
#![tactic(auto)]

#[cfg(test)]
mod items;
#[cfg(test)]
mod kept;
#[cfg(test)]
mod large_trees;
#[cfg(test)]
mod tree;
