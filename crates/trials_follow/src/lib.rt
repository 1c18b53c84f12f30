//! Tests of what follows views, by public names. There is nothing else here, since a crate with
//! tests of its own is proved twice.
#![tactic(auto)]

#[cfg(test)]
mod changes;
#[cfg(test)]
mod due;
#[cfg(test)]
mod follow;
#[cfg(test)]
mod forged;
#[cfg(test)]
mod kept;
#[cfg(test)]
mod tables;
