//! The pages that answer a query by the times of their visits, by what is known of the pages.
#![tactic(auto)]

mod answered;
mod pages;
mod visits;

pub use answered::answer;
