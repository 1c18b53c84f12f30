//! What the trials of followers and their timings share: views, a list of them that changes, and
//! followers that are told of each change. It has no tests, so that it is proved once.
#![tactic(auto)]

mod alike;
mod book;
mod both;
mod made;
mod places;

pub use alike::have_same_order;
pub use book::Book;
pub use both::{Both, Nothing};
pub use made::{Look, drawn, view};
