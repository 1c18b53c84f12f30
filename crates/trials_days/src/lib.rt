//! Tests of days that come to an engine, by public names. There is nothing else here, since a crate
//! with tests of its own is proved twice.
#![tactic(auto)]

#[cfg(test)]
mod cases;
#[cfg(test)]
mod days;
#[cfg(test)]
mod engines;
#[cfg(test)]
mod years;
