//! Words that people type: texts that are compared without regard to case, the words in them, what
//! the address bar makes of them, and tag names.
#![tactic(auto)]

mod bar_text;
mod folds;
mod stands;
mod tag_list;
mod tag_name;
mod words;

pub use bar_text::{BarText, Marks, tokens};
pub use folds::fold;
pub use stands::Standing;
pub use tag_list::first_tags;
pub use tag_name::{TagError, TagName, is_tag_name};
pub use words::{matches, pieces, searched, standing};
