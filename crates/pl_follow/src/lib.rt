//! What is kept in memory of the views of a store, and follows each change of them.
#![tactic(auto)]

mod entries;
mod follow;
mod order;
mod texts;
mod urls;

pub use follow::Follow;
pub use order::{OrderIndex, replace_rank};
pub use texts::{Folded, FoldedTexts};
pub use urls::UrlIndex;
