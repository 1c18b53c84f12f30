//! Tests of what an engine keeps of its store's pages, by public names. Other tests too ask whether
//! two keep the same, and give engines the lines of the script. There is nothing else here, since a
//! crate with tests of its own is proved twice.
#![tactic(auto)]

mod alike;
#[cfg(test)]
mod followed;
mod script;
mod turns;

pub use alike::are_alike;
pub use script::{Last, date, one_of};
pub use turns::{After, after_line, after_turn};
