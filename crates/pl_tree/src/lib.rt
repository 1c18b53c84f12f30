//! The bookmark tree, changed over any rows of a store: items are inserted, moved, given titles and
//! removed with all below them, or all are removed at once.
#![tactic(auto)]

mod ancestors;
mod children;
mod clearing;
mod error;
mod insertion;
mod moves;
mod new_item;
mod place;
mod refusals;
mod removal;
mod tags;
mod titles;
mod tree_change;

pub use children::child_at;
pub use clearing::clear;
pub use error::TreeError;
pub use insertion::{append, insert, insert_allowed};
pub use moves::move_to;
pub use new_item::NewItem;
pub use place::Place;
pub use refusals::{folder_refusal, refused};
pub use removal::remove;
pub use tags::{enter, tag, tag_allowed, tag_entry, tag_folder, untag};
pub use titles::retitle;
pub use tree_change::TreeChange;
