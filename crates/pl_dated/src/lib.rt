//! The latest visits that answer a query, by what is known of their pages: the chains of the pages
//! are gone along from the latest visit on.
#![tactic(auto)]

mod answered;
mod first;
mod visits;

pub use answered::answer;
pub use visits::is_too_early;
