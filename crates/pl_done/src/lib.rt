//! What a command that was performed leaves: what it says, and what becomes of what is known of the
//! pages. With it what the commands share: where the page of a URL is, and when a store is full.
#![tactic(auto)]

mod done;
mod find;
mod slots;

pub use done::Done;
pub use find::find_target;
pub use slots::is_full;
