//! The JSON backup of bookmarks: the text of a tree, and the tree that a text holds.
#![tactic(auto)]

mod error;
mod fields;
mod found;
mod lists;
mod nodes;
mod reader;
mod root;
mod roots;
mod writer;

pub use error::{BackupError, Fault};
pub use reader::read;
pub use writer::text;
