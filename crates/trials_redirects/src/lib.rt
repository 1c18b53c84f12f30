//! Tests of visits with sources, by public names. There is nothing else here, since a crate with
//! tests of its own is proved twice; apart from the other tests of sessions, which are as dear.
#![tactic(auto)]

#[cfg(test)]
mod redirects;
