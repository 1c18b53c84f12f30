//! Tests of queries, their texts and the address bar, by lines on a store in memory. There is
//! nothing else here, since a crate with tests of its own is proved twice.
#![tactic(auto)]

#[cfg(test)]
mod bar;
#[cfg(test)]
mod fill;
#[cfg(test)]
mod found;
#[cfg(test)]
mod listed;
#[cfg(test)]
mod order;
#[cfg(test)]
mod place_texts;
#[cfg(test)]
mod told;
