//! Whether the rows of a file are those of a good store.
#![tactic(auto)]

mod distinct;
mod good;
mod items;
mod numbers;
mod references;
mod roots;
mod row_ids;
mod search;
mod tags;
mod visited;

pub use good::are_good;
pub use numbers::Numbers;
pub use references::References;
pub use search::find_visit;
