//! Tests of the restore of bookmarks, by public names. There is nothing else here, since a crate
//! with tests of its own is proved twice.
#![tactic(auto)]

#[cfg(test)]
mod desks;
#[cfg(test)]
mod refused;
#[cfg(test)]
mod returned;
#[cfg(test)]
mod stops;
