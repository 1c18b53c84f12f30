//! What is said to a store and answered: the commands and their replies, and in `specs/` the step
//! and the run of the machine.
#![tactic(auto)]

mod command;
mod reply;
mod step_error;

pub use command::Command;
pub use reply::{BarRow, ListRow, Reply};
pub use step_error::StepError;
