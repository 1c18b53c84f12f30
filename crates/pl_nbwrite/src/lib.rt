//! The Netscape bookmark file, in which browsers give each other bookmarks: the text of a tree.
#![tactic(auto)]

mod escape;
mod lines;
mod lists;
mod writer;

pub use writer::text;
