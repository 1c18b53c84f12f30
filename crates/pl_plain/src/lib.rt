//! A store over vectors, which has no file: the plain program that tests compare with.
#![tactic(auto)]

mod flat;

pub use flat::Flat;
