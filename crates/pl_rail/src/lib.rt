//! Rails: the chains of slots that an owner has, each a list that is read and changed by its links.
//! All six kinds of chain have the same calls. `listed` looks for a list in links that may name
//! anything.
#![tactic(auto)]

mod chain;
mod listing;
mod members;
mod owner;
mod sides;

pub use chain::{first, insert_after, last, next, unlink};
pub use listing::listed;
pub use members::is_member;
pub use owner::{Owner, Side};
