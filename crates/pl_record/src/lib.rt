//! The rows of a store in slots: what slots hold of them, which chains link the slots, and what a
//! page, a visit or an item that comes, changes or goes leaves of both.
#![tactic(auto)]

mod chains;
mod index;
mod item_slots;
mod opening;
mod page_slots;
mod rows;
mod visit_slots;
mod writing;

pub use index::{id_behind, slot_at};
pub use item_slots::{insert_item, move_item, remove_item};
pub use opening::{opening_arena, root_slots};
pub use page_slots::{insert_origin, insert_place, remove_origin, remove_place};
pub use rows::{Item, Place, TextAt, Visit, named, read_item, read_place, read_total, read_visit};
pub use visit_slots::{drop_targets, free_visit, take_visit};
pub use writing::{put_item_title, put_mark, put_modified, put_title, put_total};
