//! Which totals a command sets, seen by rows that take note of it, and of what is read of them.
#![tactic(auto)]

#[cfg(test)]
mod totals;
mod watched;

pub use watched::{Log, Watched};
