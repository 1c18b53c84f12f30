//! The texts of a store's file, which lie in slots: they are stored, read, freed, and looked for in
//! slots of which nothing is known.
#![tactic(auto)]

mod part;
mod reading;
mod searching;
mod writing;

pub use reading::{bytes, load};
pub use searching::chunks;
pub use writing::{free, store};
