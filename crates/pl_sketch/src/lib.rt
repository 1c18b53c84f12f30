//! Sketches of texts, by which a word that doesn't stand in a text is mostly told from one that
//! may, without the text.
#![tactic(auto)]

mod sketch;

pub use sketch::Sketch;
