//! The slots of a store's file: which bytes hold a row, and how rows are written and read.
#![tactic(auto)]

mod arena;
mod bytes;
mod checking;
mod header;
mod kind;
mod links;
mod reading;
mod row;
mod slots;
mod taking;
mod writing;

pub use arena::Arena;
pub use kind::{LiveKind, SlotKind};
pub use links::{Link, Rail};
pub use reading::decode;
pub use row::{PAYLOAD_SIZE, SLOT_SIZE, SlotRow};
pub use writing::encode;
