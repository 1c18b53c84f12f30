//! Tests of the check of a file of linked slots. There is nothing else here, since a crate with
//! tests of its own is proved twice.
#![tactic(auto)]

#[cfg(test)]
mod changed;
#[cfg(test)]
mod checked;
#[cfg(test)]
mod forged;
