//! Tests of the backup of bookmarks, by public names. There is nothing else here, since a crate
//! with tests of its own is proved twice.
#![tactic(auto)]

#[cfg(test)]
mod desks;
#[cfg(test)]
mod large;
#[cfg(test)]
mod stops;
#[cfg(test)]
mod stores;
#[cfg(test)]
mod titles;
#[cfg(test)]
mod words;
