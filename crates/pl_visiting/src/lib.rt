//! The commands on history and on the titles of pages: each is refused, or changes the rows, and
//! tells the changes of views.
#![tactic(auto)]

mod days;
mod history;
mod titles;
mod visits;

pub use days::day;
pub use history::{expire, forget, trim, unvisit};
pub use titles::title;
pub use visits::visit;
