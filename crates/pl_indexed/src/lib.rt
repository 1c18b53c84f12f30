//! The answers to queries of history by what is known of the pages: their views, and what follows
//! these.
#![tactic(auto)]

mod answered;
mod asked;
mod found;
mod sketched;
mod walk;
mod ways;

pub use answered::{answer, rows_of};
pub use asked::{Asked, decides};
pub use found::{Found, Key, key_of};
pub use walk::{KeptOrder, next_view};
pub use ways::add;
