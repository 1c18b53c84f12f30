//! The rows of a store in linked slots, as `Rows`: each is found by its id, or by the chains of
//! those that it belongs to. The check of a file of them.
#![tactic(auto)]

mod as_rows;
mod check;
mod items;
mod linked;
mod pages;
mod visits;
mod whole;

pub use linked::Linked;
