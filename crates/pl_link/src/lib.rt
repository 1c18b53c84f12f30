//! The URLs of the store and their parts. Each is named by its text, as the URL Standard writes it.
#![tactic(auto)]

mod canon;
mod check_error;
mod parts;

pub use canon::{Canon, CanonError};
pub use parts::{Parts, split};
