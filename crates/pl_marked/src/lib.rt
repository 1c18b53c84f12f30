//! The answers to queries of bookmarks by what is known of their pages: the children of folders,
//! the bookmarks of one page, or those of all pages.
#![tactic(auto)]

mod answered;
mod found;
mod items;
mod marks;
mod ready;
mod ways;

pub use answered::answer;
