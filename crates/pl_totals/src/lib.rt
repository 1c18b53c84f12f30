//! The totals of origins and of groups of hosts, which the address bar goes by, and the pages of
//! each origin.
#![tactic(auto)]

mod groups;
mod kept;
mod origins;
mod totals;

pub use groups::without_www;
pub use totals::Totals;
