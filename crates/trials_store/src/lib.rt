//! Tests of sessions, by their public names. There is nothing else here, since a
//! crate with tests of its own is proved twice; apart from those of runs, so that neither crate
//! waits for the other.
#![tactic(auto)]

#[cfg(test)]
mod store;
