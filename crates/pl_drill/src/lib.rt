//! The drill: lines of a script that are drawn at random from a seed.
#![tactic(auto)]

mod draws;
mod drill;
mod lines;

pub use drill::{Drill, MOST_LINES};
