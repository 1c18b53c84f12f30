//! The pages that answer a query by one of their tags, gone along by the entries of its folder.
#![tactic(auto)]

mod answered;
mod entries;

pub use answered::answer;
