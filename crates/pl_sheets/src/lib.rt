//! Pages in memory, which know which of them have changed since the changed ones were last
//! listed.
#![tactic(auto)]

mod level;
mod marks;
mod sheets;

pub use sheets::Sheets;
