//! The plain rows of a file, whatever its form.
#![tactic(auto)]

mod stored;

pub use stored::{StoredPage, StoredRows, StoredVisit};
