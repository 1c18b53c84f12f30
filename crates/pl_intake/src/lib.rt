//! What is brought into a store: the bookmarks of a bookmark file, beside those that are there, or
//! those of a JSON backup, in their place.
#![tactic(auto)]

mod error;
mod intake;

pub use error::IntakeError;
pub use intake::Intake;
