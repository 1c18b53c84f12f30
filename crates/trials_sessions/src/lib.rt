//! What the tests of sessions share: two visits, their replies, and a command that is committed. It
//! has no tests, so that it is proved once.
#![tactic(auto)]

mod sessions;

pub use sessions::{FIRST_REPLY, SECOND_REPLY, first, perform, second, visit};
