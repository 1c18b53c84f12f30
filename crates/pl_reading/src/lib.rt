//! A file whose rows stand in slots, read while its slots may still name anything: which of its
//! bytes are the store's, which slots the header lists and what they hold, and the rows with their
//! texts. Each call tells exactly whether there is what it looks for.
#![tactic(auto)]

mod file;
mod items;
mod live;
mod names;
mod pages;
mod rows;
mod texts;
mod visits;

pub use file::{arena_in, named_pages};
pub use items::stored_items;
pub use live::{LiveSlots, live_slots};
pub use pages::stored_pages;
pub use rows::{read_items, read_places, read_totals, read_visits};
pub use texts::{row_texts, text_slots, wanted_slots};
pub use visits::stored_visits;
