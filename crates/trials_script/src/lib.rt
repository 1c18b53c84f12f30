//! Tests of lines as they are read and replies as they are written, by public names. There is
//! nothing else here, since a crate with tests of its own is proved twice; apart from those of
//! sessions, so that they wait for no store.
#![tactic(auto)]

#[cfg(test)]
mod query_lines;
#[cfg(test)]
mod script;
#[cfg(test)]
mod tree_lines;
#[cfg(test)]
mod written;
