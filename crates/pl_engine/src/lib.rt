//! What performs a command: the engine over the rows of a store.
#![tactic(auto)]

mod engine;
mod outline;
mod parts;
mod perform;

pub use engine::Engine;
pub use outline::tree_of;
pub use parts::Parts;
