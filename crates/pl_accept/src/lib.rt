//! Whether a file of linked slots is a store's: its rows are those of a good store, its links make
//! the lists that they demand, and its marks and totals are right. What is accepted is found by
//! ids.
#![tactic(auto)]

mod accepted;
mod accepting;
mod by_ids;
mod counted;
mod good;
mod linked;
mod own_lists;
mod slots;

pub use accepted::Accepted;
pub use accepting::accept;
