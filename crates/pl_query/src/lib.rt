//! The answers to queries of history and bookmarks: which rows, and in which order.
#![tactic(auto)]

mod answered;
mod candidates;
mod decided;
mod mark_dates;
mod ordering;
mod result_row;
mod shown;

pub use answered::answer;
pub use decided::{decides, has_tags_in, holds_unfolded, is_watchable};
pub use result_row::ResultRow;
