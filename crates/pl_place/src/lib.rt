//! The texts of queries: `place:`, and pieces apart by `&`, each a key and a value, after the
//! `place:` addresses of Mozilla Places.
#![tactic(auto)]

mod asked;
mod draft;
mod firsts;
mod gathered;
mod key;
mod kinds;
mod query;
mod reader;
mod sort;
mod value;
mod writer;

pub use key::Key;
pub use kinds::{QueryType, ResultType, TimeRef};
pub use query::Query;
pub use reader::{QueryError, read};
pub use sort::{Direction, Sort, SortKey};
pub use writer::write;
