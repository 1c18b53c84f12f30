//! A list of pages is written into a store's file whole or not at all.
//!
//! A commit writes the pages into a journal behind the store, sets the gate, writes the pages into
//! their places, and clears the gate; a sync stands between each two of these. What a stop leaves
//! stands for the pages before or for the pages after, and `recover` installs a journal whose gate
//! is set.
#![tactic(auto)]

mod commit;
mod device;
mod error;
mod gate;
mod journal;
mod read;
mod recover;
mod states;

pub use error::GateError;
pub use gate::Gate;
pub use states::{Armed, Closed, Installed, Staged};
