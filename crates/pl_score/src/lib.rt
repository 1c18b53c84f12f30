//! The frecency of a page by a sample of its visits, after the classic algorithm of Mozilla Places
//! with the defaults of its preferences.
#![tactic(auto)]

mod due;
mod sample;
mod table;

pub use due::{earlier, keeps_weight, next_change, next_due};
pub use sample::{SAMPLE_SIZE, Sampled, score};
pub use table::{bonus, weight};
