//! The import of bookmarks over any rows of a store, and beforehand what it takes. The pages and
//! the tags that are there are gone through once, and no bookmark is looked up among the rows.
#![tactic(auto)]

mod cost;
mod grafting;

pub use cost::{Cost, MOST_ROWS, needed, needed_anew, row_count};
pub use grafting::{Grafted, graft};
