//! Tests of texts in slots, by the public names of `pl_text`. There is nothing else here, since a
//! crate with tests of its own is proved twice.
#![tactic(auto)]

#[cfg(test)]
mod made;
#[cfg(test)]
mod memory;
#[cfg(test)]
mod searched;
#[cfg(test)]
mod stored;
#[cfg(test)]
mod texts;
