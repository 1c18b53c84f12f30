//! Tests of bookmark files, read and written. There is nothing else here, since a crate with tests
//! of its own is proved twice.
#![tactic(auto)]

#[cfg(test)]
mod browsers;
#[cfg(test)]
mod refused;
#[cfg(test)]
mod shown;
#[cfg(test)]
mod tags;
#[cfg(test)]
mod titles;
#[cfg(test)]
mod trees;
#[cfg(test)]
mod values;
#[cfg(test)]
mod worked;
#[cfg(test)]
mod written;
