//! The bookmark tree in one vector, in which siblings stand in order.
#![tactic(auto)]

mod by_id;
mod change;
mod items;
mod look;
mod node;
mod plant;

pub use by_id::{ById, Child, Listed};
pub use items::Items;
