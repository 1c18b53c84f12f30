//! Tests of visits that come and go in linked slots, beside rows over vectors.
#![tactic(auto)]

mod adding;
mod comparing;
#[cfg(test)]
mod visits;

pub use adding::{add_link, add_target, drop_visit};
pub use comparing::{came_from, same_order};
