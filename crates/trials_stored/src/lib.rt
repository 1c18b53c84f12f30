//! Tests of whole runs on a file, by public names: what is made and run on again, what a stop and a
//! failure in each call leave, any cut of what is read and said, and how many bytes are written.
//! There is nothing else here, since a crate with tests of its own is proved twice.
#![tactic(auto)]

#[cfg(test)]
mod again;
#[cfg(test)]
mod cuts;
#[cfg(test)]
mod each_command;
#[cfg(test)]
mod made;
#[cfg(test)]
mod stored;
#[cfg(test)]
mod written;
