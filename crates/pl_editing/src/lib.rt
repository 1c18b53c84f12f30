//! The commands on items and tags, the import and the restore: each is refused, or changes the
//! rows.
#![tactic(auto)]

mod awaiting;
mod bookmarks;
mod change;
mod gained;
mod imports;
mod insert;
mod removal;
mod restores;
mod tags;

pub use bookmarks::bookmark;
pub use change::{move_item, retitle};
pub use imports::import;
pub use insert::{folder, separator};
pub use removal::remove;
pub use restores::restore;
pub use tags::{tag, untag};
