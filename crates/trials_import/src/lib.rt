//! Tests of the import of bookmarks, by public names. There is nothing else here, since a crate
//! with tests of its own is proved twice.
#![tactic(auto)]

#[cfg(test)]
mod desks;
#[cfg(test)]
mod imported;
#[cfg(test)]
mod refused;
#[cfg(test)]
mod room;
#[cfg(test)]
mod stops;
