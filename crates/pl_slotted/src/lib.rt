//! The rows of a store in linked slots, and their changes: the slots of pages, visits and items are
//! found by their ids, and chains link what belongs together.
#![tactic(auto)]

mod items;
mod pages;
mod slotted;
mod visits;
mod whole;

pub use slotted::Slotted;
