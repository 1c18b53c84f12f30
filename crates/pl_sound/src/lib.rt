//! Whether the marks and the totals of a file's rows are those that the definitions give.
#![tactic(auto)]

mod marks;
mod redirects;
mod right;
mod sums;
mod totals;
mod visits;

pub use right::are_right;
