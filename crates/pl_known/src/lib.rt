//! What is known in memory of the pages of a store: their views, and what follows these.
#![tactic(auto)]

mod known;
mod told;
mod views;

pub use known::Known;
