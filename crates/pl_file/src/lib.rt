//! The edge: the file and the streams of this process, as the desk and the source of `pl_desk`.
//!
//! Neither tells its content, so no clause says what a file or a stream holds. That the file of
//! this system keeps the words of `Desk` on what a stop may leave is a premise.
#![tactic(auto)]

mod entry;
mod file_desk;
mod held_file;
mod standard_streams;
mod store_file;
mod stream_source;

pub use file_desk::FileDesk;
pub use stream_source::StreamSource;
