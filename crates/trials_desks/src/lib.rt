//! What the tests of whole runs share: runs on a store in memory that is kept as a file.
//! It has no tests, so that it is proved once.
#![tactic(auto)]

mod desks;

pub use desks::{WORKED, copied, done, in_memory, new_store, run_on, said_text};
