//! The bookmarks of a store as one tree.
#![tactic(auto)]

mod node;
mod outline;
mod tags;

pub use outline::{tree, whole_tree};
