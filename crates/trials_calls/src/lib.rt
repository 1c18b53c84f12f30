//! Tests of each call on rows: calls that look drawn at random, on rows in linked slots and over
//! vectors; and each look-up on a small store.
#![tactic(auto)]

mod chance;
#[cfg(test)]
mod coming;
mod drawing;
mod pair;
#[cfg(test)]
mod random;
#[cfg(test)]
mod small;

pub use chance::Chance;
pub use drawing::draw;
pub use pair::Pair;
