//! What is told of a store by the commands that leave it as it is: of a page, of an origin, of all
//! that it holds, of a folder, of a query, and by the address bar.
#![tactic(auto)]

mod address_bar;
mod children;
mod origins;
mod pages;
mod queries;

pub use address_bar::{bar, fill};
pub use children::list;
pub use origins::{origin, stats};
pub use pages::page;
pub use queries::{place, query};
