//! What the tests of slots, rails and texts share: arenas over bytes, and slots that are taken,
//! read and written. It has no tests, so that it is proved once.
#![tactic(auto)]

mod arenas;
mod reading;

pub use arenas::{arena_with, blank, over, put, sheets_of, take};
pub use reading::{count_live, is_live, live, read, slot_count, write};
