//! The address bar: the pages that it offers for a text, and the host that it fills in.
#![tactic(auto)]

mod asked;
mod filling;
mod items;
mod offers;
mod tiers;
mod wording;

pub use filling::fill;
pub use offers::answer;
