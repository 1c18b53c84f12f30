//! What a query asks of a date, of a page and of a bookmark: a query is made ready once, and then
//! asked of many rows.
#![tactic(auto)]

mod asked;
mod conditions;

pub use asked::{Asked, tags_asked, words_asked};
pub use conditions::{
    history_holds, is_count_asked, is_host_in, is_in_parents, is_uri, page_holds,
};
