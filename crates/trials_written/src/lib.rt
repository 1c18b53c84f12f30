//! What the tests of files and `files_main` share: the file of linked slots that a script leaves.
//! It has no tests, so that it is proved once.
#![tactic(auto)]

mod written;

pub use written::file_of;
