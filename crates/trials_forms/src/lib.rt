//! Calls on any rows of a store, chosen before, so that several forms of rows get the same, and
//! what rows tell of an id. Tests of rows share it.
#![tactic(auto)]

mod asked;
mod calls;
mod good;
mod good_items;
mod grafting;
mod import_error;
pub mod kept;
mod look_ups;
mod texts;

pub use asked::{has_item, has_page, has_room, has_source, has_visit, is_idle};
pub use calls::{Answer, Call, Draft, Spot};
pub use good::{GoodRows, Made};
pub use import_error::ImportError;
pub use look_ups::{
    ItemLooks, PageLooks, PageTexts, VisitLooks, item_looks, item_text, page_looks, page_texts,
    visit_looks,
};
pub use texts::{Address, Words};
