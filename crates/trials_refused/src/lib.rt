//! Tests of whole runs in which an allocation may be refused, by public names. With ample memory
//! each says its rows; `rt try --test --fail-alloc N` refuses the Nth allocation of a test. There
//! is nothing else here, since a crate with tests of its own is proved twice.
#![tactic(auto)]

#[cfg(test)]
mod left;
#[cfg(test)]
mod runs;
