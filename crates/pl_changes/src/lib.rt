//! What the rows of a store tell of its pages, and how what is known of these changes with them.
#![tactic(auto)]

mod items;
mod one_page;
mod opening;
mod origins;
mod renewal;

pub use items::item_changes;
pub use opening::known_of;
pub use renewal::changes;
