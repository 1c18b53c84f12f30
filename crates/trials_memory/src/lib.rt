//! What the tests of lines share: lines on a store in memory, which the plain program takes too,
//! and the replies to them. It has no tests, so that it is proved once.
#![tactic(auto)]

mod engines;
mod lines;
mod memory;

pub use engines::{Stepped, alike};
pub use lines::{answered, replied, stepped, text_of};
pub use memory::Memory;
