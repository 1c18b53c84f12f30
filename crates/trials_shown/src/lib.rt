//! What the tests of bookmark files and of backups share: trees as texts. It has no tests, so that
//! it is proved once.
#![tactic(auto)]

mod trees;

pub use trees::shown;
