//! The text of the script: the command of a line, the text of a reply, and in
//! `specs/` the grammar of both.
#![tactic(auto)]

mod bar_lines;
mod day;
mod field;
mod fields;
mod history_lines;
mod item_lines;
mod lines;
mod origin_lines;
mod query_lines;
mod reply;
mod rows;
mod tag_lines;
mod word;

pub use field::escaped;
pub use fields::LONGEST_LINE;
pub use lines::{LineError, line};
pub use reply::reply_text;
