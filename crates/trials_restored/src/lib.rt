//! Tests of a restore of bookmarks, by public names: what it takes, told beforehand, the rows that
//! lose all bookmarks before it, and the stores behind it. There is nothing else here, since a crate with tests of its
//! own is proved twice.
#![tactic(auto)]

#[cfg(test)]
mod cases;
#[cfg(test)]
mod cleared;
#[cfg(test)]
mod costs;
#[cfg(test)]
mod restores;
#[cfg(test)]
mod room;
#[cfg(test)]
mod stores;
