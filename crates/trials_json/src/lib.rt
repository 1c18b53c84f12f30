//! Tests of JSON backups, by public names: which trees and refusals short files have, and those
//! that nest deep or are long. There is nothing else here, since a crate with tests of its own is
//! proved twice.
#![tactic(auto)]

#[cfg(test)]
mod files;
#[cfg(test)]
mod firefox;
#[cfg(test)]
mod large;
#[cfg(test)]
mod nodes;
#[cfg(test)]
mod told;
#[cfg(test)]
mod written;
