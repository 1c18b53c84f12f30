//! The slots of rows by their ids: a map of all of them, and beside it a run in which the slots of
//! ids that lie close to one another are found at once.
#![tactic(auto)]

mod index;
mod run;

pub use index::SlotIndex;
