//! What the tests of rows share: the rows of a store with bookmarks and tags as a table, and calls
//! that bring pages and visits to any rows, with the walk that finds where they go. It has no
//! tests, so that it is proved once.
#![tactic(auto)]

mod calls;
mod table;
mod target;

pub use calls::{add_page, add_visit};
pub use table::{ITEMS, Item, LAST, NEXT, PAGES, Page, VISITS, Visit};
pub use target::find_target;
