//! Tests of rows as a file has them, which are those of a good store or not, by their public names.
//! There is nothing else here, since a crate with tests of its own is proved twice.
#![tactic(auto)]

#[cfg(test)]
mod row_damages;
#[cfg(test)]
mod tables;
#[cfg(test)]
mod tree_damages;
