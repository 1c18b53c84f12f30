//! Tests of folds, tag names and the pieces of texts, by their public names. There is nothing else
//! here, since a crate with tests of its own is proved twice.
#![tactic(auto)]

#[cfg(test)]
mod words;
