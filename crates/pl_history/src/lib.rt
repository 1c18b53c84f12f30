//! History, changed over any rows: pages are made for URLs, visits are added, and
//! go one by one or because they are old, pages get bookmarks and tags, pages go that nothing
//! keeps any longer, and pages get the frecency of a new day. What is computed of each page that a
//! change bears on is right behind it, and visits that come or go tell which pages these are.
#![tactic(auto)]

mod bookmarks;
mod days;
mod expiration;
mod find;
mod removal;
mod settle;
mod slots;
mod tags;
mod trimming;
mod visiting;

pub use bookmarks::add_bookmark;
pub use days::age_page;
pub use expiration::{expire, forget};
pub use find::{Target, is_place};
pub use removal::{Removal, Removed, put_in_order, remove_visits};
pub use settle::{settle_all, settle_page};
pub use slots::slots_after;
pub use tags::{add_tag, is_tagged};
pub use trimming::trim;
pub use visiting::{AddedVisit, add_visit, page_for};
