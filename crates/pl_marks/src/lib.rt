//! What is computed of a page by its visits and its items: its frecency, its two marks, its tags
//! and its view.
#![tactic(auto)]

mod bookmarks;
mod dates;
mod figures;
mod items;
mod mark;
mod tags;
mod totals;
mod url_parts;
mod views;

pub use bookmarks::mark_title;
pub use dates::last_date;
pub use figures::{Figures, page_figures};
pub use items::{ItemFigures, item_figures};
pub use mark::{Aged, aged_page, computed_mark, refresh, unvisited_mark, visited_mark};
pub use tags::{is_bookmarked, is_tagged, page_tags, tag_folder, tag_text};
pub use totals::keep_mark;
pub use url_parts::{canon_of, parts_of};
pub use views::page_view;
