//! The pages and the tags of a store, found by keys: pages by their URLs, tags by the folds of
//! their names. The rows are gone through once, and whoever adds some keeps the keys up to date.
#![tactic(auto)]

mod pages;
mod tags;

pub use pages::{Entered, Named, Pages};
pub use tags::{Entering, TagFolder, Tags};
