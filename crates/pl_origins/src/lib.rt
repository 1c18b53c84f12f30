//! The names of the origins of a file's pages, tried in one pass.
#![tactic(auto)]

mod names;

pub use names::named_origins;
