//! What the words that the program is called with ask for, and how much it reads for that.
#![tactic(auto)]

mod task;

pub use task::{SCRIPT_LIMIT, Task};
