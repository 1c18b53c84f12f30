//! The Netscape bookmark file, in which browsers give each other bookmarks: the tree that its bytes
//! hold.
#![tactic(auto)]

mod attributes;
mod builder;
mod open_list;
mod part;
mod reader;
mod references;
mod tree;
mod values;

pub use reader::{FILE_LIMIT, ReadError, read};
pub use tree::{Node, Tree};
