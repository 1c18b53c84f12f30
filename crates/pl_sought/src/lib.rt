//! What tells that words which are looked for do not all stand in the texts of a page.
#![tactic(auto)]

mod words;

pub use words::sketch_of_words;
