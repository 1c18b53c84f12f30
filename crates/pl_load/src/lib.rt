//! The rows of a file of linked slots, read as a whole while its slots may hold anything, and tests
//! of them that a file in the form of a store's rows passes.
#![tactic(auto)]

mod counts;
mod file_rows;
mod held;
mod lone_slots;
mod meeting;
mod members;
mod met;
mod owners;
mod read;
mod stored;
mod target_lists;

pub use counts::{counts_slots, have_names};
pub use file_rows::FileRows;
pub use lone_slots::have_lone_slots;
pub use members::{
    origin_members, page_members, parent_members, reference_members, source_members,
};
pub use read::read_file;
pub use target_lists::have_target_lists;
